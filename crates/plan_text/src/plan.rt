//! The parts of a plan.

use count_set::ReplicaSet;
use seal_kit::Height;
use seq_base::{Items, Setting, TxList};

/// The plan of one run.
pub struct Plan {
    pub setting: Setting,
    /// The seed of the sealers: 0 to 2^63-1.
    pub seed: u64,
    pub height: Height,
    /// The last view.
    pub views: u32,
    /// The maximum number of ticks.
    pub ticks: u32,
    /// The number of delivered envelopes after which the run ends.
    pub turns: u32,
    pub faulty: ReplicaSet,
    /// Whether batches are left out of the printed text.
    pub summary: bool,
    pub clients: Clients,
    pub arrivals: Arrivals,
    pub links: Links,
    pub deeds: Deeds,
    pub restarts: Restarts,
}

impl Drop for Plan {
    fn drop(self) {
        let Plan {
            setting: _,
            seed: _,
            height: _,
            views: _,
            ticks: _,
            turns: _,
            faulty: _,
            summary: _,
            clients: _,
            arrivals: _,
            links: _,
            deeds: _,
            restarts: _,
        } = self;
    }
}

pub type Clients = Items<Client>;

pub type Arrivals = Items<Arrival>;

pub type Links = Items<LinkFault>;

pub type Deeds = Items<Deed>;

pub type Restarts = Items<Restart>;

/// A client that sends `count` transactions to each replica: numbers 1 to `count`, each with the payload 0.
#[derive(Clone, Copy, PartialEq, Eq)]
pub struct Client {
    pub id: u32,
    pub count: u32,
}

/// Transactions that a replica receives after `turn` delivered envelopes.
pub struct Arrival {
    pub replica: u32,
    pub turn: u32,
    pub txs: TxList,
}

impl Drop for Arrival {
    fn drop(self) {
        let Arrival {
            replica: _,
            turn: _,
            txs: _,
        } = self;
    }
}

/// What a link does to one send.
#[derive(Clone, Copy, PartialEq, Eq)]
pub enum LinkKind {
    /// It is not delivered.
    Lose,
    /// It is delivered twice.
    Twice,
    /// Every bit of its middle byte is flipped.
    Garble,
    /// It is delivered this many sends later.
    Hold(u32),
}

/// The fault of the send of a number, counted from 1, on the link between two replicas.
#[derive(Clone, Copy, PartialEq, Eq)]
pub struct LinkFault {
    pub from: u32,
    pub to: u32,
    pub number: u32,
    pub kind: LinkKind,
}

/// What a faulty replica does to its sends.
#[derive(Clone, Copy, PartialEq, Eq, PartialOrd, Ord)]
pub enum DeedKind {
    /// It sends nothing.
    Silent,
    /// The lists of its local orders are reversed.
    Reverse,
    /// It proposes a second block to the upper half of the replicas.
    TwoBlocks,
    /// It asks for a new view with the first block's certificate.
    Stale,
    /// Each send is preceded by its own first half.
    Noise,
    /// Each vote is followed by one in its neighbour's name.
    Forge,
}

/// A deed of a replica in a view, or in every view where that is 0.
#[derive(Clone, Copy, PartialEq, Eq)]
pub struct Deed {
    pub replica: u32,
    pub view: u32,
    pub kind: DeedKind,
}

/// A crash of a replica after `turn` delivered envelopes. The replica recovers with what it has persisted.
#[derive(Clone, Copy, PartialEq, Eq)]
pub struct Restart {
    pub replica: u32,
    pub turn: u32,
}
