//! What peers report.
ghost use Rattle.std.specs.Prelude.{◌≡◌, ◌<◌, IfOk, OnOk, OnErr, true, is_some, slice_index_or, slice_set};
ghost use Rattle.std.specs.List.{IsDistinct};
ghost use Rattle.std.specs.Map.{lookup, keys_of};
ghost use Rattle.indexmap.specs.IndexMap.{insert_entry};
ghost use Rattle.seq_base.specs.Tx.{tx_eq};
ghost use Rattle.intake.specs.Keys.{limit};
ghost use Rattle.intake.specs.Receiving.{heard, hear_answer, clock_heard, clock_raised, noted, with_stamp};

use crate::slot::{LIMIT, Slot, UNKNOWN};
use crate::{Desk, Receipt, Taken};
use indexmap::IndexMap;
use seq_base::{NoMemory, Tx};

impl Desk {
    /// A receipt of a peer. It is a receipt of one's own too where the transaction is new and the peer is within its
    /// quota. A stamp that no honest clock reaches changes nothing.
    pub fn hear(&mut self, peer: u32, receipt: Receipt) -> Result<Taken, NoMemory>
        requires { peer < self.old.n }
        ensures answer { IfOk result (λ taken. taken ≡ hear_answer peer receipt self.old) }
        ensures ok { OnOk result (self.new ≡ heard peer receipt self.old) }
        ensures err { OnErr result (self.new ≡ self.old) }
    {
        if LIMIT <= receipt.stamp {
            return Ok(Taken::Beyond);
        }
        let before = self.raise(peer, receipt.stamp);
        let answer = self.receive(receipt.tx, peer);
        if answer.is_ok() {
            self.note(peer, receipt);
        } else {
            self.set_clock(peer, before);
        }
        answer
    }

    /// The clock of a peer.
    pub fn hear_clock(&mut self, peer: u32, clock: u64)
        requires { peer < self.old.n }
        ensures { self.new ≡ clock_heard peer clock self.old }
    {
        if clock < LIMIT {
            self.raise(peer, clock);
        }
    }

    // Moves a clock up, and returns what it was.
    fn raise(&mut self, peer: u32, clock: u64) -> u64
        requires replica { peer < self.old.n }
        requires below { clock < limit }
        ensures before { result ≡ slice_index_or self.old.clocks peer 0 }
        ensures low { result < limit }
        ensures raised { self.new ≡ clock_raised peer clock self.old }
    {
        let before = self.clock_of(peer);
        self.set_clock(peer, before.max(clock));
        before
    }

    fn clock_of(&self, peer: u32) -> u64
        requires { peer < self.now.n }
        ensures value { result ≡ slice_index_or self.now.clocks peer 0 }
        ensures low { result < limit }
    {
        self.clocks[peer as usize]
    }

    fn set_clock(&mut self, peer: u32, clock: u64)
        requires replica { peer < self.old.n }
        requires below { clock < limit }
        ensures { self.new ≡ record self.old { clocks = slice_set self.old.clocks peer clock } }
    {
        self.clocks[peer as usize] = clock;
    }

    // Notes a peer's stamp of a held transaction.
    fn note(&mut self, peer: u32, receipt: Receipt)
        requires { peer < self.old.n }
        ensures { self.new ≡ noted peer receipt self.old }
    {
        if let Some(slot) = self.held.get(&receipt.tx).copied() {
            put(
                &mut self.held,
                receipt.tx,
                with_stamp(slot, peer, receipt.stamp),
            );
        }
    }
}

/// Replaces the slot of a held transaction.
pub(crate) fn put(held: &mut IndexMap<Tx, Slot>, tx: Tx, slot: Slot)
    requires { is_some (lookup (tx_eq tx) held.old.entries) ≡ true }
    ensures entries { held.new.entries ≡ insert_entry tx_eq held.old.entries tx slot }
    ensures unique { IsDistinct tx_eq (keys_of held.new.entries) }
{
    let _ = held.insert(tx, slot);
}

/// The first stamp of a peer stays.
fn with_stamp(mut slot: Slot, peer: u32, stamp: u64) -> Slot
    requires { peer < 16 }
    ensures { result ≡ with_stamp peer stamp slot }
{
    if slot.stamps[peer as usize] == UNKNOWN {
        slot.stamps[peer as usize] = stamp;
    }
    slot
}
