ghost use Rattle.std.specs.Prelude.{◌≡◌, false, IfOk};
ghost use Rattle.majority_graph.specs.Graph.{IsGraph};
ghost use Rattle.fair_update.specs.Updates.{updated};
ghost use Rattle.fair_update.specs.Waiting.{is_complete, waiting_of};

use fair_update::{update, waiting};
use majority_graph::Proposal;
use seq_base::{NoMemory, Setting, Tx, TxList};
use std::alloc::Global;
use std::marker::Model;

/// The graph of an incomplete proposal, and which of its transactions wait.
pub(crate) struct Pending {
    graph: Proposal,
    waiting: TxList,
}

impl Drop for Pending {
    fn drop(self) {
        let Pending {
            graph: _,
            waiting: _,
        } = self;
    }
}

impl Model for Pending {
    ghost use Rattle.majority_graph.specs.Graph.{Graph};
    ghost use Rattle.chain_state.specs.Keeping.{IsPending};

    ghost Value = { Graph };

    ghost view = { λ a. a.graph };

    ghost invariant = { λ a. IsPending a.graph a.waiting };
}

impl Pending {
    pub(crate) fn of(alloc: Global, graph: Proposal) -> Result<Pending, NoMemory>
        requires { is_complete graph ≡ false }
        ensures { IfOk result (λ pending. pending ≡ graph) }
    {
        let waiting = waiting(alloc, &graph)?;
        Ok(Pending { graph, waiting })
    }

    /// Its transactions that belong to a missing pair.
    pub(crate) fn waiting(&self) -> &[Tx]
        ensures waiting { result.now ≡ waiting_of self.now }
        ensures graph { IsGraph self.now }
        ensures incomplete { is_complete self.now ≡ false }
    {
        self.waiting.as_slice()
    }

    /// The graph with the edges that the late lists give.
    pub(crate) fn updated(
        &self,
        alloc: Global,
        setting: &Setting,
        late: &[TxList],
    ) -> Result<Proposal, NoMemory>
        ensures { IfOk result (λ graph. graph ≡ updated setting.now late.now self.now) }
    {
        let mut graph = self.graph.copy()?;
        update(alloc, setting, &mut graph, late)?;
        Ok(graph)
    }
}
