//! What a desk reports.
ghost use Rattle.std.specs.Prelude.{◌≡◌, length, not, count_by, IfOk};
ghost use Rattle.std.specs.Map.{values_of};
ghost use Rattle.intake.specs.Arriving.{AreOrdered, candidates};
ghost use Rattle.intake.specs.Desk.{waiting, arrived_list};
ghost use Rattle.intake.specs.Receiving.{receipts_after};

use crate::arrive::{is_known, keyed};
use crate::slot::{Keyed, Slot};
use crate::{Desk, Receipt, keys};
use indexmap::IndexMap;
use seq_base::{NoMemory, Tx};

impl Desk {
    /// How many transactions wait.
    pub fn waiting_count(&self) -> usize
        ensures { result ≡ length (waiting self.now) }
    {
        waiting_in(&self.held)
    }

    /// The held transactions that arrived, in the order of receipt.
    pub(crate) fn arrived_list(&self) -> Result<Vec<Tx>, NoMemory>
        ensures { IfOk result (λ txs. txs.items ≡ arrived_list self.now) }
    {
        let mut txs = Vec::new(self.alloc);
        for (tx, slot) in self.held.iter() {
            if slot.arrived {
                txs.push(*tx)?;
            }
        }
        Ok(txs)
    }

    /// The key and the low stamp of a waiting transaction.
    pub(crate) fn ranks_of(&self, tx: &Tx) -> Option<(Keyed, u64)> {
        match self.held.get(tx) {
            Some(slot) if !slot.arrived => {
                let low = keys::key_of(self.f as usize + 1, &slot.stamps);
                Some((keyed(self.k(), tx, slot), low))
            }
            _ => None,
        }
    }

    /// The waiting transactions with a known key, ascending by key and transaction.
    pub fn ordered(&self) -> Result<Vec<Keyed>, NoMemory>
        ensures { IfOk result (λ list. AreOrdered self.now list.items) }
    {
        let mut list = self.candidates()?;
        list.sort()?;
        Ok(list)
    }

    fn candidates(&self) -> Result<Vec<Keyed>, NoMemory>
        ensures { IfOk result (λ list. list.items ≡ candidates self.now) }
    {
        let k = self.k();
        let mut list = Vec::new(self.alloc);
        for (tx, slot) in self.held.iter() {
            if !slot.arrived {
                let found = keyed(k, tx, slot);
                if is_known(found) {
                    list.push(found)?;
                }
            }
        }
        Ok(list)
    }

    /// Own receipts of held transactions with a greater stamp, in order, at most `most` of them. A caller starts at 0, and
    /// continues after the stamp of the last one.
    pub fn receipts_after(&self, stamp: u64, most: usize) -> Result<Vec<Receipt>, NoMemory>
        ensures { IfOk result (λ list. list.items ≡ receipts_after stamp most self.now) }
    {
        let me = self.me as usize;
        let mut list = Vec::new(self.alloc);
        for (tx, slot) in self.held.iter() {
            let own = slot.stamps[me];
            if list.len() < most && stamp < own {
                list.push(Receipt {
                    tx: *tx,
                    stamp: own,
                })?;
            }
        }
        Ok(list)
    }
}

fn waiting_in(held: &IndexMap<Tx, Slot>) -> usize
    ensures { result ≡ count_by (λ slot. not slot.arrived) (values_of held.now.entries) }
{
    held.values().filter(|slot| !slot.arrived).count()
}
