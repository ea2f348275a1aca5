//! Who called for which view.
ghost use Rattle.std.specs.Prelude.{◌≡◌, ◌++◌, ◌∷◌, [], OnOk};
ghost use Rattle.node_core.specs.State.{has_called, callers_of};

use super::State;
use seq_base::NoMemory;
use std::marker::Model;

/// A replica called for a view.
#[derive(Clone, Copy)]
pub(crate) struct Call {
    view: u32,
    replica: u32,
}

impl Model for Call {
    ghost use Rattle.node_core.specs.State.{Called};

    ghost Value = { Called };

    ghost view = { λ a. record { view = a.view; replica = a.replica } };

    ghost inverse = { λ c. record { view = c.view; replica = c.replica } };
}

impl State {
    /// How many replicas called for a view.
    pub(crate) fn gathered_count(&self, view: u32) -> usize
        ensures { result ≡ callers_of self.now.gathered view }
    {
        self.gathered
            .iter()
            .filter(|call| call.view == view)
            .count()
    }

    pub(crate) fn has_gathered(&self, view: u32, replica: u32) -> bool
        ensures { result ≡ has_called self.now.gathered view replica }
    {
        self.gathered
            .iter()
            .any(|call| call.view == view && call.replica == replica)
    }

    /// A replica called for a view.
    pub(crate) fn gather(&mut self, view: u32, replica: u32) -> Result<(), NoMemory>
        ensures { OnOk result (self.new ≡ record self.old {
          gathered = self.old.gathered ++ record { view = view; replica = replica } ∷ [];
        }) }
    {
        self.gathered.push(Call { view, replica })?;
        Ok(())
    }
}
