use indexmap::IndexSet;
use locked_log::Grows;
use seq_base::{NoMemory, Tx, TxList};
use std::alloc::Global;
use std::error::Error;
use std::fmt;
use std::marker::Model;

/// The maximum number of transactions in a log.
const MOST: usize = 65_536;

/// The position of a transaction, counted from 0.
#[derive(Clone, Copy, PartialEq, Eq)]
pub enum Placed {
    /// It was absent, and is now the last entry, at this position.
    At(u32),
    /// It was in the log already, at this position.
    Again(u32),
}

/// Why a transaction was not accepted.
#[derive(Clone, Copy, Debug, PartialEq, Eq)]
pub enum SubmitFault {
    /// The log holds 65,536 transactions, and not this one.
    Full,
    NoMemory,
}

impl fmt::Display for SubmitFault {
    ghost use Rattle.std.specs.Prelude.{Some};
    ghost use Rattle.arrival_log.specs.FaultWords.{fault_words};

    ghost output = { λ fault. Some (fault_words fault) };

    fn fmt<W: fmt::Write>(&self, f: &mut fmt::Formatter<W>) -> fmt::Result {
        f.write_str(match self {
            SubmitFault::Full => "the log is full",
            SubmitFault::NoMemory => "no memory",
        })
    }
}

impl Error for SubmitFault {}

/// Transactions in the order in which they arrived, each once, at most 65,536. Contracts see it as that list.
#[derive(Drop)]
pub struct Log {
    txs: IndexSet<Tx>,
}

impl Model for Log {
    ghost use Rattle.std.specs.Prelude.{◌≤◌, List, length};
    ghost use Rattle.seq_base.specs.declared.tx.Tx.{Tx};

    ghost Value = { List Tx };

    ghost view = { λ log. log.txs.keys };

    ghost invariant = { λ log. length log.txs.keys ≤ 65536 };
}

impl Log {
    ghost use Rattle.std.specs.Prelude.{◌≡◌, ◌≤◌, ◌&&◌, not, nat_le, [], length, slice_get, drop, IfOk};
    ghost use Rattle.seq_base.specs.Lists.{holds};
    ghost use Rattle.arrival_log.specs.Arrivals.{IsArrivals, IsSubmitted};

    /// An empty log. It takes no memory before the first `submit`.
    pub fn new(alloc: Global) -> Log
        ensures { result ≡ [] }
    {
        Log {
            txs: IndexSet::new(alloc),
        }
    }

    /// Appends a transaction, unless the log holds it already. In that case no memory is taken.
    pub fn submit(&mut self, tx: Tx) -> Result<Placed, SubmitFault>
        ensures { IsSubmitted self.old tx result self.new }
    {
        if self.is_full_for(&tx) {
            return Err(SubmitFault::Full);
        }
        let Ok((at, is_new)) = self.txs.insert_full(tx) else {
            return Err(SubmitFault::NoMemory);
        };
        if is_new {
            return Ok(Placed::At(at as u32));
        }
        Ok(Placed::Again(at as u32))
    }

    // Whether the log is full and lacks the transaction.
    #[tactic(auto, using(crate::proofs::Submissions::are_arrivals, crate::proofs::Submissions::asked_of_a_set))]
    fn is_full_for(&self, tx: &Tx) -> bool
        ensures full { result ≡ (nat_le 65536 (length self.now) && not (holds tx.now self.now)) }
        ensures arrivals { IsArrivals self.now }
    {
        self.txs.len() >= MOST && !self.txs.contains(tx)
    }

    #[tactic(auto, using(crate::proofs::Submissions::are_arrivals))]
    pub fn len(&self) -> u32
        ensures length { result ≡ length self.now }
        ensures arrivals { IsArrivals self.now }
    {
        self.txs.len() as u32
    }

    pub fn get(&self, at: u32) -> Option<Tx>
        ensures { result ≡ slice_get self.now at }
    {
        self.txs.get_index(at as usize).copied()
    }

    /// All transactions, in their order.
    pub fn txs(&self, alloc: Global) -> Result<TxList, NoMemory>
        ensures { IfOk result (λ list. list ≡ self.now) }
    {
        self.copy_from(alloc, 0)
    }

    // A copy of the entries from a position on.
    #[tactic(auto, using(crate::proofs::Submissions::are_arrivals))]
    pub(crate) fn copy_from(&self, alloc: Global, from: u32) -> Result<TxList, NoMemory>
        requires { from ≤ length self.now }
        ensures copy { IfOk result (λ list. list ≡ drop from self.now) }
        ensures arrivals { IsArrivals self.now }
    {
        let txs = &self.txs.as_slice()[from as usize..];
        Ok(TxList::of(Vec::from_slice(alloc, txs)?))
    }
}

impl Grows for Log {
    type Entry = Tx;

    ghost list = { λ log. log };

    fn count(&self) -> u64 {
        u64::from(self.len())
    }
}
