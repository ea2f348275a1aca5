//! What the tests of the turn table find before the node changes.
use crate::Turned;
use seq_base::{Block, Digest, SealedOrder, Tx};
use wire_view::{CallView, VoteView};

/// A judged event.
#[derive(Drop)]
pub(crate) enum Judged<'a> {
    /// The turn leaves the node as it is, and seals nothing. This is its result.
    Idle(Turned),
    /// The turn changes the node.
    Active(Accepted<'a>),
}

/// An event for which no test held, with what the tests have made of it: owned values and the digests of blocks.
#[derive(Drop)]
pub(crate) enum Accepted<'a> {
    Arrived(&'a [Tx]),
    /// The view that the node enters.
    Tick {
        view: u32,
    },
    NewView {
        from: u32,
        call: CallView<'a>,
    },
    Ask {
        from: u32,
        call: CallView<'a>,
    },
    Order(SealedOrder),
    Propose {
        block: Block,
        digest: Digest,
    },
    /// A vote, and the order that it carries.
    Vote {
        vote: VoteView<'a>,
        order: Option<SealedOrder>,
    },
    Give {
        block: Block,
        digest: Digest,
    },
}
