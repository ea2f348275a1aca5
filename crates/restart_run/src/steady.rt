//! The run of a plan over keepers in memory that never fail.
ghost use Rattle.std.specs.Prelude.{◌≡◌, ◌≤◌, ◌<◌, ◌*◌, [], false, length, All, IfOk};
ghost use Rattle.fault_script.specs.Sealing.{signers_of};
ghost use Rattle.plan_text.specs.Rules.{KeepsRules};
ghost use Rattle.seal_kit.specs.Seals.{capacity_of};
ghost use Rattle.replica_seat.specs.Kits.{kit_of};
ghost use Rattle.replica_seat.specs.Seats.{AreReadable};
ghost use Rattle.replay_run.specs.Play.{play_of};
ghost use Rattle.restart_run.specs.Started.{gives_for};

use crate::PlayFault;
use crate::play::play_kept;
use durable_node::SteadyKeeper;
use plan_text::Plan;
use run_record::RunRecord;
use seal_kit::{Checker, SealGrower};
use seq_base::NoMemory;
use std::alloc::Global;

/// The run of a plan as [`play_kept`] returns it, over keepers in memory that never fail. They are dropped at the end.
pub fn play_restarting<M: SealGrower, C: Checker>(
    alloc: Global,
    plan: &Plan,
    maker: &M,
    sealers: Vec<M::S>,
    checker: &C,
) -> Result<RunRecord, NoMemory>
    requires rules { KeepsRules plan.now }
    requires kit { signers_of M.S.Sealer sealers.items
        ≡ kit_of (gives_for (M.gives maker.now) plan.now) (capacity_of plan.now.height) plan.now.setting.n }
    requires replicas { All (λ s. M.S.replica s < plan.now.setting.n) sealers.items }
    requires suffice { All (λ s. 5 * plan.now.views ≤ M.S.capacity s) sealers.items }
    ensures play { IfOk result (λ run. run ≡ play_of (C.meaning checker.now) plan.now
        (kit_of (gives_for (M.gives maker.now) plan.now) (capacity_of plan.now.height) plan.now.setting.n)) }
    ensures readable { IfOk result (λ run. All (λ journal. AreReadable journal.entries) run.journals) }
{
    let keepers = steady_keepers(alloc, plan.setting.n())?;
    match play_kept(alloc, plan, maker, sealers, checker, keepers) {
        Ok((run, _)) => Ok(run),
        Err(PlayFault::NoMemory) => Err(NoMemory),
        // A keeper that never fails has no fault.
        Err(PlayFault::Keep { .. }) => unreachable!(),
    }
}

/// A new keeper for each of n replicas.
fn steady_keepers(alloc: Global, n: u32) -> Result<Vec<SteadyKeeper>, NoMemory>
    ensures count { IfOk result (λ keepers. length keepers.items ≡ n) }
    ensures new { IfOk result (λ keepers. All (λ k. k ≡ record { bytes = []; durable_size = 0; openings = 0; begun = false }) keepers.items) }
{
    let mut keepers = Vec::new(alloc);
    for _replica in 0..n {
        keepers.push(SteadyKeeper::new(alloc))?;
    }
    Ok(keepers)
}
