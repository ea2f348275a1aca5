//! The transactions that are final so far, and what may arrive after them.
ghost use Rattle.std.specs.Prelude.{◌≡◌, ◌||◌, [], IfOk, IfErr, OnOk, OnErr, position};
ghost use Rattle.seq_base.specs.declared.tx.Tx.{Tx};
ghost use Rattle.seq_base.specs.Lists.{holds};
ghost use Rattle.session_rules.specs.Final.{AreNew, HaveNoOtherMarker, IsAddCause, IsArrivalCause, MayFollow, is_known, is_other_marker, left_of};

use crate::check::begins_with;
use crate::cut::{insert_all, marker, others};
use crate::fault::{AddFault, ArrivalFault};
use seq_base::{NoMemory, Tx, TxList};
use std::alloc::Global;
use std::collections::HashSet;
use std::marker::Model;

/// The transactions that are final before a session, by which an auditor checks what arrived in it, also at replicas that took
/// a history from another. All honest replicas cut a session alike, so that one set serves for all of them. Contracts see the
/// transactions, in no order.
pub struct FinalTxs {
    alloc: Global,
    txs: HashSet<Tx>,
}

impl Drop for FinalTxs {
    fn drop(self) {
        let FinalTxs { alloc: _, txs: _ } = self;
    }
}

impl Model for FinalTxs {
    ghost use Rattle.std.specs.Prelude.{List};
    ghost use Rattle.seq_base.specs.declared.tx.Tx.{Tx};

    ghost Value = { List Tx };

    ghost view = { λ f. f.txs.keys };
}

impl FinalTxs {
    /// Before the first session nothing is final.
    pub fn new(alloc: Global) -> FinalTxs
        ensures { result ≡ [] }
    {
        FinalTxs {
            alloc,
            txs: HashSet::new(alloc),
        }
    }

    /// Adds a final batch, of which nothing is final yet. A call that fails adds nothing.
    pub fn add(&mut self, batch: &[Tx]) -> Result<(), AddFault>
        ensures added { OnOk result ((tx : Tx) → is_known self.new tx ≡ (is_known self.old tx || holds tx batch.now)) }
        ensures new { OnOk result (AreNew (is_known self.old) batch.now) }
        ensures cause { IfErr result (λ fault. IsAddCause fault (is_known self.old) batch.now) }
        ensures err { OnErr result (self.new ≡ self.old) }
    {
        if let Some(at) = first_known(&self.txs, batch) {
            return Err(AddFault::AlreadyFinal { at });
        }
        add_all(&mut self.txs, batch)?;
        Ok(())
    }

    /// What a replica carries over to the next session, of what arrived at it in the last one, in the order of arrival.
    pub fn left_of(&self, arrived: &[Tx]) -> Result<TxList, NoMemory>
        ensures { IfOk result (λ left. left ≡ left_of (is_known self.now) arrived.now) }
    {
        Ok(TxList::of(others(self.alloc, &self.txs, arrived)?))
    }

    /// Checks what arrived at a replica in a session. `before` is what arrived at it in the session before; it is empty where the
    /// replica was not in that session, or where this is not known.
    pub fn check_arrivals(
        &self,
        session: u32,
        before: &[Tx],
        arrived: &[Tx],
    ) -> Result<(), ArrivalFault>
        ensures ok { OnOk result (MayFollow (is_known self.now) before.now arrived.now) }
        ensures own { OnOk result (HaveNoOtherMarker session arrived.now) }
        ensures cause { IfErr result (λ fault. IsArrivalCause fault session (is_known self.now) before.now arrived.now) }
    {
        if let Some(at) = first_known(&self.txs, arrived) {
            return Err(ArrivalFault::AlreadyFinal { at });
        }
        if let Some(at) = first_other_marker(session, arrived) {
            return Err(ArrivalFault::OtherMarker { at });
        }
        let left = others(self.alloc, &self.txs, before)?;
        if !begins_with(arrived, &left) {
            return Err(ArrivalFault::NotCarried);
        }
        Ok(())
    }
}

/// The position of the first transaction that is in the set.
fn first_known(set: &HashSet<Tx>, txs: &[Tx]) -> Option<usize>
    ensures { result ≡ position (is_known set.now.keys) txs.now }
{
    txs.iter().position(|tx| set.contains(tx))
}

/// The position of the first transaction of the reserved client that is not the session's marker.
fn first_other_marker(session: u32, txs: &[Tx]) -> Option<usize>
    ensures { result ≡ position (is_other_marker session) txs.now }
{
    txs.iter().position(|tx| is_other_marker(session, tx))
}

fn is_other_marker(session: u32, tx: &Tx) -> bool
    ensures { result ≡ is_other_marker session tx.now }
{
    tx.client == 0 && *tx != marker(session)
}

/// Inserts all of the transactions, or none.
fn add_all(set: &mut HashSet<Tx>, txs: &[Tx]) -> Result<(), NoMemory>
    ensures ok { OnOk result ((tx : Tx) → is_known set.new.keys tx ≡ (is_known set.old.keys tx || holds tx txs.now)) }
    ensures err { OnErr result (set.new.keys ≡ set.old.keys) }
{
    set.reserve(txs.len())?;
    // The set has room, so this does not fail.
    let _ = insert_all(set, txs);
    Ok(())
}
