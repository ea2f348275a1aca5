//! The run of a plan over keepers.
ghost use Rattle.std.specs.Prelude.{◌≡◌, ◌≤◌, ◌<◌, ◌+◌, ◌-◌, ◌*◌, ◌++◌, ◌∷◌, [], ℕ, length, map, All, IfErr, IfOk, OnOk};
ghost use Rattle.fault_script.specs.Sealing.{signers_of};
ghost use Rattle.plan_text.specs.Rules.{KeepsRules};
ghost use Rattle.seal_kit.specs.Seals.{capacity_of};
ghost use Rattle.replica_seat.specs.Kits.{kit_of};
ghost use Rattle.replica_seat.specs.Seats.{AreReadable, meaning};
ghost use Rattle.replay_run.specs.Kept.{IsStopFor, meant};
ghost use Rattle.replay_run.specs.Play.{play_of, run_for, start_of, steps_of};
ghost use Rattle.replay_run.specs.Step.{step};
ghost use Rattle.replay_run.specs.World.{world_of};
ghost use Rattle.replay_run.specs.declared.keepers.Keeping.{Keeping};
ghost use Rattle.restart_run.specs.Counts.{starts_before, starts_by};
ghost use Rattle.restart_run.specs.Logged.{AreLogged, IsPlayFault};
ghost use Rattle.restart_run.specs.New.{AreBegun, HadFaults, IsNew};
ghost use Rattle.restart_run.specs.Started.{AreStarted, Starts, gives_for, ground, none_failed};

use crate::PlayFault;
use crate::opening::begun_keeper;
use crate::restarts::restart_due;
use durable_node::Keeper;
use plan_text::Plan;
use replay_run::{
    Keepers, Keeping, Network, StepFault, most_steps, network_of, record_of, steps_get_on,
};
use replica_seat::seats_of;
use run_record::RunRecord;
use seal_kit::{Checker, SealGrower, Sealer};
use seq_base::NoMemory;
use std::alloc::Global;

/// The run of a plan as `play` returns it, where each honest replica logs its events. At each of its restarts a replica
/// is stopped and restarted, before it is given what arrived by that turn. The sealers and the checker are those of the
/// kit that the maker makes for the plan. For each restart the maker makes one new sealer. There is a keeper for each
/// replica, without bytes and never opened. The keepers are returned in the order of replicas.
pub fn play_kept<M: SealGrower, C: Checker, K: Keeper>(
    alloc: Global,
    plan: &Plan,
    maker: &M,
    sealers: Vec<M::S>,
    checker: &C,
    keepers: Vec<K>,
) -> Result<(RunRecord, Vec<K>), PlayFault<K>>
    // The sealers are those of the plan's kit, with room for all views, and there is a new keeper for each replica.
    requires rules { KeepsRules plan.now }
    requires kit { signers_of M.S.Sealer sealers.items
        ≡ kit_of (gives_for (M.gives maker.now) plan.now) (capacity_of plan.now.height) plan.now.setting.n }
    requires replicas { All (λ s. M.S.replica s < plan.now.setting.n) sealers.items }
    requires suffice { All (λ s. 5 * plan.now.views ≤ M.S.capacity s) sealers.items }
    requires count { length keepers.items ≡ plan.now.setting.n }
    requires new { All (IsNew (meant K.Keeper) K.begun) keepers.items }
    // The record is that of `play`, and the keepers hold the logs of its journals.
    ensures play { IfOk result (λ done. done.0 ≡ play_of (C.meaning checker.now) plan.now
        (kit_of (gives_for (M.gives maker.now) plan.now) (capacity_of plan.now.height) plan.now.setting.n)) }
    ensures logs { IfOk result (λ done. AreLogged (meant K.Keeper) plan.now done.0.turns done.1.items done.0.journals) }
    ensures readable { IfOk result (λ done. All (λ journal. AreReadable journal.entries) done.0.journals) }
    // Without a record a keeper has failed more often than before, or memory ran out.
    ensures fault { (least : ℕ → ℕ) → HadFaults (meant K.Keeper) least 0 keepers.items
        → IfErr result (IsPlayFault (meant K.Keeper) least) }
{
    let mut network = start(alloc, plan, sealers)?;
    let mut keepers = begun_keepers(alloc, plan, keepers)?;
    match run_kept(alloc, &mut network, &mut keepers, plan, checker, maker) {
        Ok(()) => Ok((record_of(plan, network)?, released(alloc, keepers)?)),
        Err(fault) => Err(handed_back(keepers, fault)),
    }
}

/// The replicas at the start of a run.
fn start<S: Sealer>(alloc: Global, plan: &Plan, sealers: Vec<S>) -> Result<Network<S>, NoMemory>
    requires replicas { All (λ s. S.replica s < plan.now.setting.n) sealers.items }
    requires room { All (λ s. 5 * plan.now.views ≤ S.capacity s) sealers.items }
    ensures { IfOk result (λ network. world_of (meaning S.replica S.gives) network
        ≡ start_of plan.now (signers_of S.Sealer sealers.items)) }
{
    network_of(alloc, plan, seats_of(alloc, plan, sealers)?)
}

/// The keepers at the start of a run.
fn begun_keepers<K: Keeper>(
    alloc: Global,
    plan: &Plan,
    keepers: Vec<K>,
) -> Result<Keepers<K>, PlayFault<K>>
    requires count { length keepers.items ≡ plan.now.setting.n }
    requires new { All (IsNew (meant K.Keeper) K.begun) keepers.items }
    ensures begun { (least : ℕ → ℕ) → HadFaults (meant K.Keeper) least 0 keepers.items
        → IfOk result (AreBegun (meant K.Keeper) plan.now least) }
    ensures fault { (least : ℕ → ℕ) → HadFaults (meant K.Keeper) least 0 keepers.items
        → IfErr result (IsPlayFault (meant K.Keeper) least) }
{
    let mut keepers = keepers;
    let mut begun = Vec::new(alloc);
    let n = plan.setting.n();
    for replica in 0..n {
        let keeping = begun_keeper(alloc, plan, replica, keepers.remove(0))?;
        put(&mut begun, keeping)?;
    }
    Ok(Keepers {
        alloc,
        keepers: begun,
    })
}

fn put<K: Keeper>(begun: &mut Vec<Keeping<K>>, keeping: Keeping<K>) -> Result<(), NoMemory>
    ensures { OnOk result (begun.new.items ≡ begun.old.items ++ keeping ∷ []) }
{
    begun.push(keeping)?;
    Ok(())
}

/// Makes steps until the run ends, and before each step the restarts whose turn is reached.
fn run_kept<M: SealGrower, C: Checker, K: Keeper>(
    alloc: Global,
    network: &mut Network<M::S>,
    keepers: &mut Keepers<K>,
    plan: &Plan,
    checker: &C,
    maker: &M,
) -> Result<(), StepFault>
    requires rules { KeepsRules plan.now }
    requires turns { network.old.turns ≡ 0 }
    requires ticks { network.old.ticks ≡ 0 }
    requires kept { AreStarted (ground (meant K.Keeper) (meaning M.S.replica M.S.gives) (C.meaning checker.now) plan.now (M.gives maker.now))
        (starts_before plan.now.restarts 0) none_failed keepers.old network.old }
    ensures world { OnOk result (world_of (meaning M.S.replica M.S.gives) network.new
        ≡ run_for (C.meaning checker.now) plan.now (world_of (meaning M.S.replica M.S.gives) network.old) (steps_of plan.now)) }
    ensures kept { Starts (ground (meant K.Keeper) (meaning M.S.replica M.S.gives) (C.meaning checker.now) plan.now (M.gives maker.now))
        (starts_before plan.now.restarts 0) (starts_by plan.now.restarts network.new.turns) keepers.old network.old result keepers.new network.new }
{
    steps_get_on();
    let mut from = 0;
    for step in 0..most_steps(plan) {
        let turns = network.turns;
        if !step_kept(alloc, network, keepers, plan, checker, maker, from)? {
            return Ok(());
        }
        from = u64::from(turns) + 1;
    }
    Ok(())
}

/// Makes one step of a run, and before it the restarts whose turn is now reached and was not before. Returns whether
/// the run continues.
fn step_kept<M: SealGrower, C: Checker, K: Keeper>(
    alloc: Global,
    network: &mut Network<M::S>,
    keepers: &mut Keepers<K>,
    plan: &Plan,
    checker: &C,
    maker: &M,
    from: u64,
) -> Result<bool, StepFault>
    requires rules { KeepsRules plan.now }
    requires near { from ≤ network.old.turns + 1 }
    requires kept { AreStarted (ground (meant K.Keeper) (meaning M.S.replica M.S.gives) (C.meaning checker.now) plan.now (M.gives maker.now))
        (starts_before plan.now.restarts from) none_failed keepers.old network.old }
    ensures world { IfOk result (λ goes_on. step (C.meaning checker.now) plan.now (world_of (meaning M.S.replica M.S.gives) network.old)
        ≡ record { goes_on = goes_on; world = world_of (meaning M.S.replica M.S.gives) network.new }) }
    ensures kept { Starts (ground (meant K.Keeper) (meaning M.S.replica M.S.gives) (C.meaning checker.now) plan.now (M.gives maker.now))
        (starts_before plan.now.restarts from)
        (starts_before plan.now.restarts (network.old.turns + 1)) keepers.old network.old result keepers.new network.new }
{
    restart_due(alloc, network, keepers, plan, checker, maker, from)?;
    network.step(keepers, plan, checker)
}

/// The keepers alone, in the order of replicas.
fn released<K: Keeper>(alloc: Global, keepers: Keepers<K>) -> Result<Vec<K>, NoMemory>
    ensures { IfOk result (λ out. out.items ≡ map (λ k. k.keeper) keepers) }
{
    Ok(
        keepers
            .keepers
            .into_iter()
            .map(|keeping| keeping.keeper)
            .collect(alloc)?,
    )
}

/// Why there is no run, with the keeper that failed.
fn handed_back<K: Keeper>(keepers: Keepers<K>, fault: StepFault) -> PlayFault<K>
    ensures { (least : ℕ → ℕ) → IsStopFor (meant K.Keeper) least keepers fault
        → IsPlayFault (meant K.Keeper) least result }
{
    let mut keepers = keepers.keepers;
    match fault {
        StepFault::NoMemory => PlayFault::NoMemory,
        StepFault::Keep { replica } => {
            let place = replica as usize;
            if place >= keepers.len() {
                return PlayFault::NoMemory;
            }
            let keeper = keepers.remove(place).keeper;
            PlayFault::Keep { replica, keeper }
        }
    }
}
