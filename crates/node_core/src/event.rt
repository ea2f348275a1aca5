use seq_base::{Packet, TxList};
use wire_view::WireFault;

/// An input of a node.
pub enum Event {
    /// Transactions that arrived, in their order, after those that the node knows already.
    Arrived(TxList),
    /// Bytes from a replica.
    Deliver { from: u32, bytes: Packet },
    /// The pacemaker asks for a view above the node's own view and above this one.
    Tick { floor: u32 },
}

impl Drop for Event {
    fn drop(self) {
        match self {
            Event::Arrived(_) => {}
            Event::Deliver { from: _, bytes: _ } => {}
            Event::Tick { floor: _ } => {}
        }
    }
}

/// The reason of a turn: `Done`, or the first test for the event's kind that held.
#[derive(Clone, Copy, PartialEq, Eq)]
pub enum Reason {
    /// No test held: the event took effect.
    Done,
    /// The bytes are not a message.
    BadWire(WireFault),
    /// The message names another sender.
    Foreign,
    /// The view is 0 or past the last one.
    ViewLimit,
    /// The message does not come from, or does not go to, the leader of its view.
    NotLeader,
    /// The view is older than what the node has seen.
    OldView,
    /// A seal does not fit.
    BadSeal,
    /// The certificate is not valid for the view.
    BadCert,
    /// A block that the message builds on is not stored.
    Orphan,
    /// The block or order does not fit its position in the chain.
    Misfit,
    /// Another block with the same digest is stored.
    Clash,
    /// The voting rule forbids the vote.
    Unsafe,
    /// The message has nothing new.
    Repeat,
}
