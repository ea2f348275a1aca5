//! A chain that knows what its blocks propose.
use indexmap::IndexSet;
use intake::Chain;
use seq_base::{NoMemory, Tx};
use std::alloc::Global;

pub(crate) struct Blocks {
    pub(crate) proposed: IndexSet<Tx>,
}

impl Drop for Blocks {
    fn drop(self) {
        let Blocks { proposed: _ } = self;
    }
}

impl Blocks {
    pub(crate) fn new(alloc: Global) -> Blocks {
        Blocks {
            proposed: IndexSet::new(alloc),
        }
    }
}

impl Chain for Blocks {
    ghost use Rattle.std.specs.List.{list_any};
    ghost use Rattle.seq_base.specs.Tx.{tx_eq};

    ghost proposes = { λ blocks tx. list_any (tx_eq tx) blocks.proposed.keys };

    fn is_proposed(&self, tx: &Tx) -> Result<bool, NoMemory> {
        Ok(self.proposed.contains(tx))
    }
}
