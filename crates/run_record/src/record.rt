use count_set::ReplicaSet;
use node_core::Entries;
use seq_base::{BatchList, Items, Setting, TxLists};

/// All events of a replica from its opening on, with the results of their turns.
pub struct Journal {
    pub entries: Entries,
}

impl Drop for Journal {
    fn drop(self) {
        let Journal { entries: _ } = self;
    }
}

/// One journal for each replica.
pub type Journals = Items<Journal>;

/// Where a replica stands: its view, and the view of its committed block.
#[derive(Clone, Copy, PartialEq, Eq)]
pub struct Head {
    pub view: u32,
    pub commit: u32,
}

/// One head for each replica.
pub type Heads = Items<Head>;

/// One list of batches for each replica.
pub type BatchLists = Items<BatchList>;

/// A whole run. Its lists have one entry for each replica. In the journal of a faulty replica the sends are those after
/// its deeds; its head and batches are those of its node.
pub struct RunRecord {
    pub setting: Setting,
    pub faulty: ReplicaSet,
    /// The transactions that arrived at each replica, in the order of their arrival.
    pub arrivals: TxLists,
    pub journals: Journals,
    pub heads: Heads,
    /// The final batches of each replica.
    pub batches: BatchLists,
    /// The number of delivered envelopes.
    pub turns: u32,
    pub ticks: u32,
}

impl Drop for RunRecord {
    fn drop(self) {
        let RunRecord {
            setting: _,
            faulty: _,
            arrivals: _,
            journals: _,
            heads: _,
            batches: _,
            turns: _,
            ticks: _,
        } = self;
    }
}
