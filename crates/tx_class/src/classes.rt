ghost use Rattle.std.specs.Prelude.{◌≡◌, ◌≤◌, IfOk, length, map, slice_get};
ghost use Rattle.seq_base.specs.Lists.{AreFresh, listed};
ghost use Rattle.seq_base.specs.declared.tx.Tx.{Tx};
ghost use Rattle.std.specs.List.Sorted.{IsSorted};
ghost use Rattle.seq_base.specs.Tx.{tx_cmp};
ghost use Rattle.tx_class.specs.Listed.{class_of};
ghost use Rattle.tx_class.specs.Sorted.{times};
ghost use Rattle.tx_class.specs.Tally.{tally_of, count_in, class_in};

use crate::laws::tallies_show_counts;
use crate::sorted::{entries_of, once, times};
use seq_base::{NoMemory, Setting, Tx, TxList};
use std::alloc::Global;
use std::marker::Model;

/// The class of a transaction, by how many lists hold it.
#[derive(Clone, Copy, PartialEq, Eq)]
pub enum Class {
    /// At least n-2f lists hold it, so that it is always proposed.
    Solid,
    /// Fewer hold it, but at least as many as the threshold: it is proposed where it leads to a solid one.
    Shaded,
    /// Fewer than the threshold hold it, or none.
    Blank,
}

/// The listed transactions in ascending order, the number of lists that hold each, and the bounds of the classes.
pub struct Classes {
    txs: Vec<Tx>,
    counts: Vec<u32>,
    threshold: u32,
    solid_at: u32,
}

impl Drop for Classes {
    fn drop(self) {
        let Classes {
            txs: _,
            counts: _,
            threshold: _,
            solid_at: _,
        } = self;
    }
}

impl Model for Classes {
    ghost use Rattle.tx_class.specs.Tally.{Tally, IsTally};

    ghost Value = { Tally };

    ghost view = { λ c. record { txs = c.txs.items; counts = c.counts.items; threshold = c.threshold; solid_at = c.solid_at } };

    ghost invariant = { λ c. IsTally (record { txs = c.txs.items; counts = c.counts.items; threshold = c.threshold; solid_at = c.solid_at }) };
}

/// Counts the lists that hold each transaction.
pub fn classify(alloc: Global, setting: &Setting, lists: &[TxList]) -> Result<Classes, NoMemory>
    requires { AreFresh lists.now }
    ensures tally { IfOk result (λ classes. classes ≡ tally_of setting.now lists.now) }

    // A lookup returns the count and the class of each transaction, listed or not.
    ensures counts { IfOk result (λ classes. (t : Tx) → count_in classes t ≡ listed lists.now t) }
    ensures classes { IfOk result (λ classes. (t : Tx) → class_in classes t ≡ class_of setting.now lists.now t) }
{
    tallies_show_counts();
    let entries = entries_of(alloc, lists)?;
    let txs = once(alloc, &entries)?;
    let counts = counts_of(alloc, &txs, &entries)?;
    Ok(Classes {
        txs,
        counts,
        threshold: setting.threshold(),
        solid_at: setting.solid_at(),
    })
}

/// How many times each of the transactions occurs among the sorted entries.
fn counts_of(alloc: Global, txs: &[Tx], entries: &[Tx]) -> Result<Vec<u32>, NoMemory>
    requires sorted { IsSorted tx_cmp entries.now }
    requires few { length entries.now ≤ 2048 }
    ensures { IfOk result (λ counts. counts.items ≡ map (λ t. times t entries.now) txs.now) }
{
    let mut counts = Vec::with_capacity(alloc, txs.len())?;
    for tx in txs {
        counts.push(times(tx, entries) as u32)?;
    }
    Ok(counts)
}

impl Classes {
    ghost use Rattle.tx_class.specs.Tally.{Tally, IsTally, count_in, class_in};

    /// The number of listed transactions.
    pub fn len(&self) -> u32
        ensures value { result ≡ length self.now.txs }
        ensures tally { IsTally self.now }
    {
        self.txs.len() as u32
    }

    /// The listed transactions in ascending order.
    pub fn as_slice(&self) -> &[Tx]
        ensures { result.now ≡ self.now.txs }
    {
        self.txs.as_slice()
    }

    /// The listed transaction of a number, or None at or past the length.
    pub fn tx(&self, k: u32) -> Option<Tx>
        ensures { result ≡ slice_get self.now.txs k }
    {
        self.txs.get(k as usize).copied()
    }

    /// The number of lists that hold a transaction, 0 where none does. Takes no memory.
    pub fn count(&self, tx: &Tx) -> u32
        ensures { result ≡ count_in self.now tx.now }
    {
        match self.txs.binary_search(tx) {
            Ok(at) => self.counts[at],
            Err(_) => 0,
        }
    }

    /// The class of a transaction, blank where no list holds it. Takes no memory.
    pub fn class(&self, tx: &Tx) -> Class
        ensures { result ≡ class_in self.now tx.now }
    {
        let count = self.count(tx);
        if count >= self.solid_at {
            Class::Solid
        } else if count >= self.threshold {
            Class::Shaded
        } else {
            Class::Blank
        }
    }
}
