//! Which waiting transactions arrive.
ghost use Rattle.std.specs.Prelude.{◌≡◌, ◌&&◌, true, length, map, filter, IfOk, OnOk, OnErr};
ghost use Rattle.std.specs.List.{list_any};
ghost use Rattle.seq_base.specs.declared.tx.Tx.{Tx};
ghost use Rattle.seq_base.specs.Tx.{tx_eq};
ghost use Rattle.intake.specs.Desk.{waits, waiting};
ghost use Rattle.intake.specs.Keys.{k_of};
ghost use Rattle.intake.specs.Arriving.{arriving, arrived, given, is_waiting, comes, is_low, is_within, is_known, keyed, marked, marked_if};

use crate::hear::put;
use crate::slot::{Keyed, Slot, UNKNOWN};
use crate::{Bound, Desk, keys};
use indexmap::IndexMap;
use seq_base::{NoMemory, Tx};

impl Desk {
    /// The waiting transactions within a bound arrive, and those of `extra` whose low stamp is not above it, in the order
    /// of their receipt.
    pub fn arrive(&mut self, bound: Bound, extra: &[Tx]) -> Result<Vec<Tx>, NoMemory>
        ensures txs { IfOk result (λ txs. txs.items ≡ arriving bound extra.now self.old) }
        ensures ok { OnOk result (self.new ≡ arrived bound extra.now self.old) }
        ensures err { OnErr result (self.new ≡ self.old) }
    {
        let txs = self.arriving(bound, extra)?;
        self.mark(bound, extra);
        Ok(txs)
    }

    /// Whether it was received, has not arrived and is not final.
    pub(crate) fn is_waiting(&self, tx: &Tx) -> bool
        ensures { result ≡ is_waiting tx.now self.now }
    {
        match self.held.get(tx) {
            None => false,
            Some(slot) => !slot.arrived,
        }
    }

    /// One waiting transaction arrives, whatever its key. It is an exception: the caller counts them.
    pub fn give(&mut self, tx: &Tx) -> bool
        ensures answer { result ≡ is_waiting tx.now self.old }
        ensures after { self.new ≡ given tx.now self.old }
    {
        match self.held.get(tx).copied() {
            None => false,
            Some(slot) => {
                put(&mut self.held, *tx, marked(slot));
                !slot.arrived
            }
        }
    }

    /// How many stamps decide a key.
    pub(crate) fn k(&self) -> usize
        ensures { result ≡ k_of self.now.n }
    {
        (self.n as usize + 1) / 2
    }

    // What would arrive.
    pub(crate) fn arriving(&self, bound: Bound, extra: &[Tx]) -> Result<Vec<Tx>, NoMemory>
        ensures { IfOk result (λ txs. txs.items ≡ arriving bound extra.now self.now) }
    {
        let k = self.k();
        let f = self.f;
        let mut txs = Vec::new(self.alloc);
        for (tx, slot) in self.held.iter() {
            if !slot.arrived && comes(k, f, bound, extra, tx, slot) {
                txs.push(*tx)?;
            }
        }
        Ok(txs)
    }

    pub(crate) fn mark(&mut self, bound: Bound, extra: &[Tx])
        ensures { self.new ≡ arrived bound extra.now self.old }
    {
        let k = self.k();
        mark_if(&mut self.held, k, self.f, bound, extra);
    }
}

fn mark_if(held: &mut IndexMap<Tx, Slot>, k: usize, f: u32, bound: Bound, extra: &[Tx])
    ensures { held.new.entries ≡ map (marked_if k f bound extra.now) held.old.entries }
{
    held.retain(
        |tx: &Tx, slot: &mut Slot| -> bool
            ensures { (result ≡ true) × (slot.new ≡ (marked_if k f bound extra.entry.now (tx.now, slot.old)).1) }
        {
            if !slot.arrived && comes(k, f, bound, extra, tx, slot) {
                slot.arrived = true;
            }
            true
        },
    );
}

fn marked(mut slot: Slot) -> Slot
    ensures { result ≡ marked slot }
{
    slot.arrived = true;
    slot
}

/// Whether the bound or the extra list lets a transaction in.
fn comes(k: usize, f: u32, bound: Bound, extra: &[Tx], tx: &Tx, slot: &Slot) -> bool
    ensures { result ≡ comes k f bound extra.now (tx.now, slot.now) }
{
    is_within(k, bound, tx, slot) || (is_low(f, bound, slot) && has(extra, tx))
}

fn has(txs: &[Tx], tx: &Tx) -> bool
    ensures { result ≡ list_any (tx_eq tx.now) txs.now }
{
    txs.iter().any(|other| *tx == *other)
}

/// Whether everything with a key below its low stamp is within the bound.
fn is_low(f: u32, bound: Bound, slot: &Slot) -> bool
    ensures { (tx : Tx) → result ≡ is_low f bound (tx, slot.now) }
{
    match bound {
        Bound::All => true,
        Bound::To { key, tx: _ } => {
            let low = keys::key_of(f as usize + 1, &slot.stamps);
            low < UNKNOWN && low <= key
        }
    }
}

/// An unknown key is within no bound but All.
fn is_within(k: usize, bound: Bound, tx: &Tx, slot: &Slot) -> bool
    ensures { result ≡ is_within k bound (tx.now, slot.now) }
{
    match bound {
        Bound::All => true,
        Bound::To { key, tx: last } => {
            let found = keyed(k, tx, slot);
            is_known(found) && found <= Keyed { key, tx: last }
        }
    }
}

/// A transaction with its key.
pub(crate) fn keyed(k: usize, tx: &Tx, slot: &Slot) -> Keyed
    ensures { result ≡ keyed k (tx.now, slot.now) }
{
    Keyed {
        key: keys::key_of(k, &slot.stamps),
        tx: *tx,
    }
}

pub(crate) fn is_known(found: Keyed) -> bool
    ensures { result ≡ is_known found }
{
    found.key < UNKNOWN
}
