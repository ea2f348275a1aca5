ghost use Rattle.std.specs.Prelude.{◌≡◌, ◌||◌, IfOk, OnOk};
ghost use Rattle.seq_base.specs.declared.tx.Tx.{Tx};
ghost use Rattle.chain_state.specs.Keeping.{is_among};
ghost use Rattle.chain_state.specs.Places.{is_pending};
ghost use Rattle.chain_state.specs.Shown.{shown};
ghost use Rattle.chain_state.specs.Standings.{stage_of, next_stage, stage_waits};

use crate::late::LateLists;
use crate::pending::Pending;
use crate::sets::insert_all;
use fair_finalize::{FinalFault, batches};
use majority_graph::Proposal;
use seq_base::{BatchList, NoMemory, Setting, Tx};
use std::alloc::Global;
use std::collections::HashSet;
use std::sync::Arc;

/// The current state of a proposal. It is shared between the state of a block and those of its children.
pub(crate) enum Standing {
    /// A complete proposal: its batches, and no edges.
    Closed(Arc<BatchList>),
    /// An incomplete proposal: its graph.
    Pending(Arc<Pending>),
}

impl Drop for Standing {
    fn drop(self) {
        match self {
            Standing::Closed(_) => {}
            Standing::Pending(_) => {}
        }
    }
}

impl Standing {
    /// Closes a proposal that is complete.
    pub(crate) fn of(alloc: Global, graph: Proposal) -> Result<Standing, NoMemory>
        ensures { IfOk result (λ standing. shown standing ≡ stage_of graph) }
    {
        match batches(alloc, &graph) {
            Ok(batches) => Ok(Standing::Closed(Arc::new(alloc, batches)?)),
            Err(FinalFault::Incomplete { .. }) => {
                let pending = Pending::of(alloc, graph)?;
                Ok(Standing::Pending(Arc::new(alloc, pending)?))
            }
            Err(FinalFault::NoMemory) => Err(NoMemory),
        }
    }

    /// The proposal after one more block. A pending proposal with a transaction that is listed late takes the edges
    /// of the late lists. Each other one is shared.
    pub(crate) fn step(
        &self,
        alloc: Global,
        setting: &Setting,
        late: &LateLists,
    ) -> Result<Standing, NoMemory>
        ensures { IfOk result (λ standing. shown standing ≡ next_stage setting.now late.now (shown self.now)) }
    {
        match self {
            Standing::Closed(_) => self.share(),
            Standing::Pending(pending) => {
                if !late.lists_any(pending.waiting()) {
                    return self.share();
                }
                let graph = pending.updated(alloc, setting, late.as_slice())?;
                Standing::of(alloc, graph)
            }
        }
    }

    /// A second handle to the same proposal.
    pub(crate) fn share(&self) -> Result<Standing, NoMemory>
        ensures { IfOk result (λ standing. shown standing ≡ shown self.now) }
    {
        Ok(match self {
            Standing::Closed(batches) => Standing::Closed(Arc::try_clone(batches)?),
            Standing::Pending(pending) => Standing::Pending(Arc::try_clone(pending)?),
        })
    }

    /// Whether it is incomplete.
    pub(crate) fn is_pending(&self) -> bool
        ensures { result ≡ is_pending (shown self.now) }
    {
        match self {
            Standing::Closed(_) => false,
            Standing::Pending(_) => true,
        }
    }

    /// Inserts its transactions that wait.
    pub(crate) fn insert_waiting(&self, set: &mut HashSet<Tx>) -> Result<(), NoMemory>
        ensures { OnOk result ((t : Tx) → is_among set.new.keys t ≡ (is_among set.old.keys t || stage_waits t (shown self.now))) }
    {
        match self {
            Standing::Closed(_) => Ok(()),
            Standing::Pending(pending) => insert_all(set, pending.waiting()),
        }
    }
}
