//! What a host computes when a session ends.
ghost use Rattle.std.specs.Prelude.{◌≡◌, ◌||◌, ◌≤◌, IfOk, IsOk, OnOk, filter, length, not, take};
ghost use Rattle.std.specs.HashSet.{spare};
ghost use Rattle.std.specs.List.{list_any};
ghost use Rattle.seq_base.specs.declared.tx.Tx.{Tx};
ghost use Rattle.seq_base.specs.Lists.{holds};
ghost use Rattle.seq_base.specs.Tx.{tx_eq};
ghost use Rattle.run_record.specs.Done.{is_finalised};
ghost use Rattle.session_rules.specs.Cuts.{carried_over, cut_at, marker};

use seq_base::{NoMemory, Tx, TxList};
use std::alloc::Global;
use std::collections::HashSet;

/// The transaction that ends the session with this number.
pub fn marker(session: u32) -> Tx
    ensures { result ≡ marker session }
{
    Tx {
        client: 0,
        number: session,
        payload: 0,
    }
}

/// How many of a session's batches count: those up to and including the first that holds the marker, or all of them.
pub fn count_batches(batches: &[TxList], marker: &Tx) -> usize
    ensures cut { take result batches.now ≡ cut_at marker.now batches.now }
    ensures within { result ≤ length batches.now }
{
    let mut count = 0;
    for batch in batches {
        count += 1;
        if batch.as_slice().contains(marker) {
            return count;
        }
    }
    count
}

/// Whether a session has ended: its batches hold the marker.
pub fn has_ended(batches: &[TxList], marker: &Tx) -> bool
    ensures { result ≡ is_finalised batches.now marker.now }
{
    batches
        .iter()
        .any(|batch| batch.as_slice().contains(marker))
}

/// What arrived and is in none of the batches, in the order of arrival. `batches` are those that count.
pub fn carried_over(alloc: Global, batches: &[TxList], arrived: &[Tx]) -> Result<TxList, NoMemory>
    ensures { IfOk result (λ list. list ≡ carried_over batches.now arrived.now) }
{
    let mut held = HashSet::new(alloc);
    insert_batches(&mut held, batches)?;
    let left = others(alloc, &held, arrived)?;
    Ok(TxList::of(left))
}

/// The transactions that are not in the set.
pub(crate) fn others(alloc: Global, held: &HashSet<Tx>, txs: &[Tx]) -> Result<Vec<Tx>, NoMemory>
    ensures { IfOk result (λ left. left.items ≡ filter (λ tx. not (list_any (tx_eq tx) held.now.keys)) txs.now) }
{
    let mut left = Vec::new(alloc);
    for tx in txs {
        if !held.contains(tx) {
            left.push(*tx)?;
        }
    }
    Ok(left)
}

/// Inserts the transactions of the batches.
pub(crate) fn insert_batches(set: &mut HashSet<Tx>, batches: &[TxList]) -> Result<(), NoMemory>
    ensures { OnOk result ((tx : Tx) → list_any (tx_eq tx) set.new.keys ≡ (list_any (tx_eq tx) set.old.keys || is_finalised batches.now tx)) }
{
    for batch in batches {
        insert_all(set, batch.as_slice())?;
    }
    Ok(())
}

/// Inserts the transactions. Where the set has room for them, the call does not fail.
pub(crate) fn insert_all(set: &mut HashSet<Tx>, txs: &[Tx]) -> Result<(), NoMemory>
    ensures inserted { OnOk result ((tx : Tx) → list_any (tx_eq tx) set.new.keys ≡ (list_any (tx_eq tx) set.old.keys || holds tx txs.now)) }
    ensures room { length txs.now ≤ spare set.old → IsOk result }
{
    for tx in txs {
        set.insert(*tx)?;
    }
    Ok(())
}
