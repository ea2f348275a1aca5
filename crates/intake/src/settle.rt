//! What is final.
ghost use Rattle.std.specs.Prelude.{◌≡◌, ◌≤◌, OnOk, OnErr, All, not};
ghost use Rattle.std.specs.List.{list_any};
ghost use Rattle.indexmap.specs.IndexSet.{insert_all};
ghost use Rattle.seq_base.specs.Tx.{tx_eq};
ghost use Rattle.intake.specs.Desk.{AreCharges};
ghost use Rattle.intake.specs.Receiving.{settled, without};

use crate::Desk;
use crate::slot::Slot;
use indexmap::{IndexMap, IndexSet};
use seq_base::{NoMemory, Tx};

impl Desk {
    /// Transactions that are final. They are no longer held, and are not received again.
    pub fn settle(&mut self, txs: &[Tx]) -> Result<(), NoMemory>
        ensures ok { OnOk result (self.new ≡ settled txs.now self.old) }
        ensures err { OnErr result (self.new ≡ self.old) }
    {
        add_all(&mut self.finals, txs)?;
        drop_finals(&mut self.held, &self.finals);
        self.charges = charges_of(&self.held);
        Ok(())
    }
}

// All or none.
fn add_all(finals: &mut IndexSet<Tx>, txs: &[Tx]) -> Result<(), NoMemory>
    ensures ok { OnOk result (finals.new.keys ≡ insert_all tx_eq finals.old.keys txs.now) }
    ensures err { OnErr result (finals.new.keys ≡ finals.old.keys) }
{
    finals.reserve(txs.len())?;
    for tx in txs {
        finals.insert(*tx)?;
    }
    Ok(())
}

fn drop_finals(held: &mut IndexMap<Tx, Slot>, finals: &IndexSet<Tx>)
    ensures { held.new.entries ≡ without finals.now.keys held.old.entries }
{
    held.retain(
        |tx: &Tx, slot: &mut Slot| -> bool
            ensures { (result ≡ not (list_any (tx_eq tx.now) finals.entry.now.keys)) × (slot.new ≡ slot.old) }
        { !finals.contains(tx) },
    );
}

// How many held ones each source has.
fn charges_of(held: &IndexMap<Tx, Slot>) -> [u64; 18]
    requires { All (λ e. e.1.source ≤ 17) held.now.entries }
    ensures { AreCharges result held.now.entries }
{
    let mut charges = [0; 18];
    for (_tx, slot) in held.iter() {
        charges[slot.source as usize] += 1;
    }
    charges
}
