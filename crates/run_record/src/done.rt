ghost use Rattle.std.specs.Prelude.{◌≡◌, ◌||◌, false, OnOk, IfOk, option_map};
ghost use Rattle.std.specs.List.{list_all, list_any};
ghost use Rattle.seq_base.specs.declared.tx.Tx.{Tx};
ghost use Rattle.seq_base.specs.Lists.{holds};
ghost use Rattle.seq_base.specs.Tx.{tx_eq};
ghost use Rattle.run_record.specs.Done.{due_of, hold_all, is_finalised, narrowed};

use crate::honest::of_honest;
use count_set::ReplicaSet;
use seq_base::{BatchList, NoMemory, Setting, Tx, TxList};
use std::alloc::Global;
use std::collections::HashSet;

/// The due transactions of a run: those in the arrival list of every honest replica, in the order of the list of the
/// honest replica with the least number. `arrivals` has one list for each replica.
pub fn due(
    alloc: Global,
    setting: &Setting,
    faulty: &ReplicaSet,
    arrivals: &[TxList],
) -> Result<TxList, NoMemory>
    ensures { IfOk result (λ due. due ≡ due_of setting.now.n faulty.now arrivals.now) }
{
    let mut due: Option<Vec<Tx>> = None;
    for replica in 0..setting.n() {
        if let Some(list) = of_honest(setting, faulty, arrivals, replica) {
            due = Some(narrowed(alloc, due, list.as_slice())?);
        }
    }
    Ok(TxList::of(due.unwrap_or(Vec::new(alloc))))
}

/// The transactions that are in the earlier lists, if there are any, and in this one.
fn narrowed(alloc: Global, earlier: Option<Vec<Tx>>, list: &[Tx]) -> Result<Vec<Tx>, NoMemory>
    ensures { IfOk result (λ left. left.items ≡ narrowed (option_map (λ txs. txs.items) earlier) list.now) }
{
    match earlier {
        None => Ok(Vec::from_slice(alloc, list)?),
        Some(earlier) => both(alloc, earlier.as_slice(), list),
    }
}

/// The transactions of the first list that are also in the second.
fn both(alloc: Global, first: &[Tx], second: &[Tx]) -> Result<Vec<Tx>, NoMemory>
    ensures { IfOk result (λ both. both.items ≡ narrowed (Some first.now) second.now) }
{
    let mut set = HashSet::new(alloc);
    insert_all(&mut set, second)?;
    let mut found = Vec::new(alloc);
    for tx in first {
        if set.contains(tx) {
            found.push(*tx)?;
        }
    }
    Ok(found)
}

fn insert_all(set: &mut HashSet<Tx>, txs: &[Tx]) -> Result<(), NoMemory>
    ensures { OnOk result ((tx : Tx) → list_any (tx_eq tx) set.new.keys ≡ (list_any (tx_eq tx) set.old.keys || holds tx txs.now)) }
{
    for tx in txs {
        set.insert(*tx)?;
    }
    Ok(())
}

/// Whether the batches have each of these transactions. The last one is searched for first: while it is missing, no set
/// of the transactions in the batches is built.
pub fn holds_all(alloc: Global, batches: &BatchList, due: &TxList) -> Result<bool, NoMemory>
    ensures { IfOk result (λ all. all ≡ hold_all batches.now due.now) }
{
    if !holds_last(batches, due.as_slice()) {
        return Ok(false);
    }
    holds_each(alloc, batches, due)
}

/// Whether the batches have the last of these transactions, if there is one.
fn holds_last(batches: &BatchList, txs: &[Tx]) -> bool
    ensures { result ≡ false → hold_all batches.now txs.now ≡ false }
{
    match txs.last() {
        Some(tx) => is_finalised(batches, tx),
        None => true,
    }
}

fn is_finalised(batches: &BatchList, tx: &Tx) -> bool
    ensures { result ≡ is_finalised batches.now tx.now }
{
    batches
        .as_slice()
        .iter()
        .any(|batch| batch.as_slice().contains(tx))
}

/// Whether the batches have each of these transactions. Builds a set of the transactions in the batches.
fn holds_each(alloc: Global, batches: &BatchList, due: &TxList) -> Result<bool, NoMemory>
    ensures { IfOk result (λ all. all ≡ hold_all batches.now due.now) }
{
    let mut held = HashSet::new(alloc);
    for batch in batches.as_slice() {
        insert_all(&mut held, batch.as_slice())?;
    }
    Ok(are_held(&held, due.as_slice()))
}

fn are_held(held: &HashSet<Tx>, txs: &[Tx]) -> bool
    ensures { result ≡ list_all (λ tx. list_any (tx_eq tx) held.now.keys) txs.now }
{
    txs.iter().all(|tx| held.contains(tx))
}
