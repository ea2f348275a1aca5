use crate::{Block, Cert, Digest, Items, Packet, Seal, SealedOrder, Vote};

/// A message between replicas. A seal signs the statement right before it; the version byte is not part of a
/// statement.
#[derive(Drop)]
pub enum Message {
    /// To the leader of the view, with the highest certificate that the sender has seen.
    NewView {
        replica: u32,
        view: u32,
        cert: Cert,
        seal: Seal,
    },
    /// The leader asks each replica for its local order over the certificate's block.
    Ask {
        replica: u32,
        view: u32,
        cert: Cert,
        seal: Seal,
    },
    /// The answer to a leader that asked.
    Order(SealedOrder),
    /// The leader proposes a block.
    Propose {
        replica: u32,
        block: Block,
        seal: Seal,
    },
    /// To the leader of the next view, with the voter's local order for that view, if there is one.
    Vote {
        vote: Vote,
        order: Option<SealedOrder>,
    },
    /// Asks for a block that is not stored.
    Fetch {
        block: Digest,
    },
    /// Gives a block that was asked for.
    Give {
        block: Block,
    },
}

/// Bytes to be sent to a replica.
pub struct Outgoing {
    pub to: u32,
    pub bytes: Packet,
}

impl Drop for Outgoing {
    fn drop(self) {
        let Outgoing { to: _, bytes: _ } = self;
    }
}

/// The outgoing messages, in the order in which they are sent.
pub type Outgoings = Items<Outgoing>;
