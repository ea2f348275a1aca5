//! The places of transactions in a list, which is sorted once for all lookups.
ghost use Rattle.std.specs.Prelude.{◌≡◌, ◌≢◌, ◌<◌, ◌≤◌, IfOk, IsTrue, length, map};
ghost use Rattle.std.specs.List.Sorted.{IsSorted};
ghost use Rattle.majority_graph.specs.Entries.{AreBefore, AreEntries, AreNumbered, IsNotBefore, entry_cmp};
ghost use Rattle.majority_graph.specs.Ranks.{place};

use seq_base::{NoMemory, Tx};
use std::alloc::Global;

/// A transaction of a list, and its place there.
#[derive(Clone, Copy, PartialEq, Eq, PartialOrd, Ord)]
pub(crate) struct Entry {
    pub(crate) tx: Tx,
    pub(crate) place: usize,
}

/// The place of each of the transactions in the list. Each search starts where the last one ended, so that ascending
/// transactions take one pass through the entries.
pub(crate) fn places_in(alloc: Global, txs: &[Tx], list: &[Tx]) -> Result<Vec<usize>, NoMemory>
    ensures { IfOk result (λ places. places.items ≡ map (λ t. place t list.now) txs.now) }
{
    let entries = entries_of(alloc, list)?;
    let mut places = Vec::with_capacity(alloc, txs.len())?;
    let mut from = 0;
    for tx in txs {
        from = count_before(&entries, from, tx);
        places.push(place_at(&entries, from, tx, list))?;
    }
    Ok(places)
}

/// The entries of a list, by transaction and then by place.
fn entries_of(alloc: Global, list: &[Tx]) -> Result<Vec<Entry>, NoMemory>
    ensures { IfOk result (λ entries. AreEntries list.now entries.items) }
{
    let mut entries = numbered(alloc, list)?;
    entries.sort()?;
    Ok(entries)
}

/// The entries of a list, by place.
fn numbered(alloc: Global, list: &[Tx]) -> Result<Vec<Entry>, NoMemory>
    ensures { IfOk result (λ entries. AreNumbered list.now (length list.now) entries.items) }
{
    let mut entries = Vec::with_capacity(alloc, list.len())?;
    for (place, tx) in list.iter().enumerate() {
        entries.push(Entry { tx: *tx, place })?;
    }
    Ok(entries)
}

/// The number of entries of lesser transactions. Where all entries before `from` are such, the search starts there.
fn count_before(entries: &[Entry], from: usize, tx: &Tx) -> usize
    requires { IsSorted entry_cmp entries.now }
    ensures before { AreBefore entries.now tx.now result }
    ensures rest { IsNotBefore entries.now tx.now result }
{
    let mut at = if are_before(entries, from, tx) {
        from
    } else {
        0
    };
    while at < entries.len() && entries[at].tx.cmp(tx).is_lt() {
        at += 1;
    }
    at
}

/// Whether all entries before a position are of lesser transactions.
fn are_before(entries: &[Entry], at: usize, tx: &Tx) -> bool
    requires { IsSorted entry_cmp entries.now }
    ensures { IsTrue result → AreBefore entries.now tx.now at }
{
    at == 0 || (at <= entries.len() && entries[at - 1].tx.cmp(tx).is_lt())
}

/// The place of a transaction whose entries can only start at this position.
fn place_at(entries: &[Entry], at: usize, tx: &Tx, list: &[Tx]) -> usize
    requires entries { AreEntries list.now entries.now }
    requires before { AreBefore entries.now tx.now at }
    requires rest { IsNotBefore entries.now tx.now at }
    ensures { result ≡ place tx.now list.now }
{
    if at < entries.len() && entries[at].tx == *tx {
        entries[at].place
    } else {
        list.len()
    }
}
