//! Lists that are sorted once, so that a transaction is looked up by binary search.
ghost use Rattle.std.specs.Prelude.{◌≡◌, ◌≤◌, IfOk, length};
ghost use Rattle.std.specs.List.{count_by, sum_by};
ghost use Rattle.std.specs.List.Sorted.{IsSorted, IsStrictlySortedBy};
ghost use Rattle.std.specs.Ordering.{is_lt, is_le};
ghost use Rattle.seq_base.specs.Lists.{AreFresh, holds, listed};
ghost use Rattle.seq_base.specs.Tx.{tx_cmp};
ghost use Rattle.seq_base.specs.declared.tx.Tx.{Tx};
ghost use Rattle.tx_class.specs.Sorted.{times};

use seq_base::{NoMemory, Tx, TxList};
use std::alloc::Global;

/// Each transaction as many times as there are lists that hold it, in ascending order.
pub(crate) fn entries_of(alloc: Global, lists: &[TxList]) -> Result<Vec<Tx>, NoMemory>
    requires { AreFresh lists.now }
    ensures counts { IfOk result (λ entries. (t : Tx) → times t entries.items ≡ listed lists.now t) }
    ensures sorted { IfOk result (λ entries. IsSorted tx_cmp entries.items) }
    ensures few { IfOk result (λ entries. length entries.items ≤ 2048) }
{
    let mut entries = joined(alloc, lists)?;
    entries.sort()?;
    Ok(entries)
}

/// The distinct entries of each list, one list after another.
fn joined(alloc: Global, lists: &[TxList]) -> Result<Vec<Tx>, NoMemory>
    ensures counts { IfOk result (λ all. (t : Tx) → times t all.items ≡ listed lists.now t) }
    ensures few { IfOk result (λ all. length all.items ≤ sum_by length lists.now) }
{
    let mut all = Vec::new(alloc);
    for list in lists {
        let held = once(alloc, list.as_slice())?;
        all.extend_from_slice(&held)?;
    }
    Ok(all)
}

/// The transactions of a list, each once, in ascending order.
pub(crate) fn once(alloc: Global, list: &[Tx]) -> Result<Vec<Tx>, NoMemory>
    ensures ascending { IfOk result (λ held. IsStrictlySortedBy tx_cmp held.items) }
    ensures same { IfOk result (λ held. (t : Tx) → holds t held.items ≡ holds t list.now) }
    ensures few { IfOk result (λ held. length held.items ≤ length list.now) }
{
    let mut held = Vec::from_slice(alloc, list)?;
    held.sort()?;
    held.dedup();
    Ok(held)
}

/// How many times a transaction occurs in a sorted list: the number of entries up to it, minus the number before it.
pub(crate) fn times(tx: &Tx, list: &[Tx]) -> usize
    requires { IsSorted tx_cmp list.now }
    ensures value { result ≡ times tx.now list.now }
    ensures few { result ≤ length list.now }
{
    let before = count_before(tx, list);
    let up_to = count_up_to(tx, list);
    up_to - before
}

fn count_before(tx: &Tx, list: &[Tx]) -> usize
    requires { IsSorted tx_cmp list.now }
    ensures value { result ≡ count_by (λ x. is_lt (tx_cmp x tx.now)) list.now }
    ensures bound { result ≤ length list.now }
{
    list.partition_point(
        |x: &Tx| -> bool
            ensures { result ≡ is_lt (tx_cmp x.now tx.entry.now) }
        { x.cmp(tx).is_lt() },
    )
}

fn count_up_to(tx: &Tx, list: &[Tx]) -> usize
    requires { IsSorted tx_cmp list.now }
    ensures value { result ≡ count_by (λ x. is_le (tx_cmp x tx.now)) list.now }
    ensures bound { result ≤ length list.now }
{
    list.partition_point(
        |x: &Tx| -> bool
            ensures { result ≡ is_le (tx_cmp x.now tx.entry.now) }
        { x.cmp(tx).is_le() },
    )
}
