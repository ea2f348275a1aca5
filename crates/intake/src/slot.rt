//! The values that a desk takes and returns.
use seq_base::Tx;

/// The number of stamps of a slot: one for each replica of the largest setting.
const STAMPS: usize = 16;

/// Stands where no stamp was heard.
pub(crate) const UNKNOWN: u64 = u64::MAX;

/// Every clock and stamp stays below it.
pub(crate) const LIMIT: u64 = 1 << 63;

/// A transaction that a replica received, with the stamp of its clock.
#[derive(Clone, Copy, Debug, PartialEq, Eq)]
pub struct Receipt {
    pub tx: Tx,
    pub stamp: u64,
}

/// What is known of one held transaction.
#[derive(Clone, Copy)]
pub struct Slot {
    /// The stamp of each replica, or UNKNOWN.
    pub(crate) stamps: [u64; 16],
    pub(crate) arrived: bool,
    /// Who brought it: the own number for the own clients, a peer's number, n for blocks, or n + 1 for the log that
    /// restored it.
    pub(crate) source: u32,
}

/// The answer to a transaction.
#[derive(Clone, Copy, Debug, PartialEq, Eq)]
pub enum Taken {
    /// It is final.
    Final,
    /// It was received before.
    Held,
    /// Its source has as many held as it may, or the clock is used up.
    Full,
    /// It is received now.
    New,
    /// A peer's stamp is one that no honest clock reaches.
    Beyond,
}

/// Where a transaction stands.
#[derive(Clone, Copy, Debug, PartialEq, Eq)]
pub enum Standing {
    Unknown,
    Waiting,
    Arrived,
    Final,
}

/// A transaction with its key. They are ordered by key, then by transaction.
#[derive(Clone, Copy, Debug, PartialEq, Eq, PartialOrd, Ord)]
pub struct Keyed {
    pub key: u64,
    pub tx: Tx,
}

/// Which waiting transactions arrive.
#[derive(Clone, Copy, Debug, PartialEq, Eq)]
pub enum Bound {
    All,
    /// Those up to this key, and at this key those up to this transaction.
    To { key: u64, tx: Tx },
}
