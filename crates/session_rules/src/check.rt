//! A check of the rules of carrying over.
ghost use Rattle.std.specs.Prelude.{◌≡◌, ◌<◌, ◌^◌, ◌↔◌, length, not, take, true, IfOk};
ghost use Rattle.std.specs.List.{list_all, list_any};
ghost use Rattle.seq_base.specs.Tx.{tx_eq};
ghost use Rattle.session_rules.specs.Arrivals.{MayArrive, arrivals_at, batches_at};
ghost use Rattle.session_rules.specs.Rules.{CarriesOver};

use crate::cut::{carried_over, count_batches, has_ended, insert_batches, marker};
use seq_base::{BatchList, NoMemory, Tx, TxList};
use std::alloc::Global;
use std::collections::HashSet;

/// Whether a replica carried over by the rules, shown by its batches and its arrival list of each session, from session 0 on.
pub fn carries_over(
    alloc: Global,
    batches: &[BatchList],
    arrivals: &[TxList],
) -> Result<bool, NoMemory>
    requires same { length arrivals.now ≡ length batches.now }
    requires few { length batches.now < 2 ^ 32 }
    ensures { IfOk result (λ holds. (holds ≡ true) ↔ CarriesOver (length batches.now) (batches_at batches.now) (arrivals_at arrivals.now)) }
{
    let mut history = HashSet::new(alloc);
    let mut ended = true;
    let mut left = TxList::of(Vec::new(alloc));
    for at in 0..batches.len() {
        let arrived = arrivals[at].as_slice();
        if !may_arrive(ended, &history, left.as_slice(), arrived) {
            return Ok(false);
        }
        let list = batches[at].as_slice();
        let last = marker(at as u32);
        let counted = &list[..count_batches(list, &last)];
        left = carried_over(alloc, counted, arrived)?;
        insert_batches(&mut history, counted)?;
        ended = ended && has_ended(list, &last);
    }
    Ok(true)
}

/// Whether this may arrive in a session.
fn may_arrive(ended: bool, history: &HashSet<Tx>, left: &[Tx], arrived: &[Tx]) -> bool
    ensures { (result ≡ true) ↔ MayArrive ended (λ tx. list_any (tx_eq tx) history.now.keys) left.now arrived.now }
{
    if ended {
        are_others(history, arrived) && begins_with(arrived, left)
    } else {
        arrived.is_empty()
    }
}

/// Whether none of the transactions is in the set.
fn are_others(set: &HashSet<Tx>, txs: &[Tx]) -> bool
    ensures { result ≡ list_all (λ tx. not (list_any (tx_eq tx) set.now.keys)) txs.now }
{
    txs.iter().all(|tx| !set.contains(tx))
}

pub(crate) fn begins_with(txs: &[Tx], prefix: &[Tx]) -> bool
    ensures { (result ≡ true) ↔ (take (length prefix.now) txs.now ≡ prefix.now) }
{
    txs.starts_with(prefix)
}
