ghost use Rattle.std.specs.Prelude.{◌≡◌, IfOk};
ghost use Rattle.std.specs.List.{list_any};
ghost use Rattle.seq_base.specs.Lists.{holds};
ghost use Rattle.chain_state.specs.Keeping.{is_among};

use crate::sets::insert_all;
use seq_base::{NoMemory, Tx, TxList};
use std::alloc::Global;
use std::collections::HashSet;
use std::marker::Model;

/// The late lists of a block, and the set of what they list.
pub(crate) struct LateLists {
    lists: Vec<TxList>,
    listed: HashSet<Tx>,
}

impl Drop for LateLists {
    fn drop(self) {
        let LateLists {
            lists: _,
            listed: _,
        } = self;
    }
}

impl Model for LateLists {
    ghost use Rattle.std.specs.Prelude.{List};
    ghost use Rattle.seq_base.specs.declared.tx.Tx.{Tx};
    ghost use Rattle.chain_state.specs.Keeping.{AreListed};

    ghost Value = { List (List Tx) };

    ghost view = { λ a. a.lists.items };

    ghost invariant = { λ a. AreListed a.lists.items a.listed.keys };
}

impl LateLists {
    pub(crate) fn of(alloc: Global, lists: Vec<TxList>) -> Result<LateLists, NoMemory>
        ensures { IfOk result (λ late. late ≡ lists.items) }
    {
        let listed = listed_in(alloc, &lists)?;
        Ok(LateLists { lists, listed })
    }

    pub(crate) fn as_slice(&self) -> &[TxList]
        ensures { result.now ≡ self.now }
    {
        self.lists.as_slice()
    }

    /// Whether any of these is listed.
    pub(crate) fn lists_any(&self, txs: &[Tx]) -> bool
        ensures { result ≡ list_any (λ t. list_any (holds t) self.now) txs.now }
    {
        for tx in txs {
            if self.lists(tx) {
                return true;
            }
        }
        false
    }

    fn lists(&self, tx: &Tx) -> bool
        ensures { result ≡ list_any (holds tx.now) self.now }
    {
        self.listed.contains(tx)
    }
}

/// The set of what the lists hold.
fn listed_in(alloc: Global, lists: &[TxList]) -> Result<HashSet<Tx>, NoMemory>
    ensures { IfOk result (λ set. (t : Tx) → is_among set.keys t ≡ list_any (holds t) lists.now) }
{
    let mut listed = HashSet::new(alloc);
    for list in lists {
        insert_all(&mut listed, list.as_slice())?;
    }
    Ok(listed)
}
