ghost use Rattle.std.specs.Prelude.{◌≡◌, ◌+◌, ◌<◌, ◌≤◌, ◌*◌, IfOk, OnOk, All};
ghost use Rattle.fault_script.specs.Sealing.{signers_of};
ghost use Rattle.replica_seat.specs.Seats.{AreReadable, meaning};
ghost use Rattle.replay_run.specs.World.{world_of};
ghost use Rattle.replay_run.specs.Play.{play_of, record_of, run_for, steps_of};

use crate::keepers::{Keepers, StepFault};
use crate::network::Network;
use crate::start::network_of;
use durable_node::{Keeper, SteadyKeeper};
use plan_text::Plan;
use replica_seat::{arrivals_of, batches_of, heads_of, journals_of, seats_of};
use run_record::RunRecord;
use seal_kit::{Checker, Sealer};
use seq_base::NoMemory;
use std::alloc::Global;

/// The run of a plan: its nodes over one queue, the oldest envelope first, and a tick only where the queue is empty.
/// The sealers and the checker are those of one kit that was made for the plan. The sealers have made no seals yet.
pub fn play<S: Sealer, C: Checker>(
    alloc: Global,
    plan: &Plan,
    sealers: Vec<S>,
    checker: &C,
) -> Result<RunRecord, NoMemory>
    requires replicas { All (λ s. S.replica s < plan.now.setting.n) sealers.items }
    requires room { All (λ s. 5 * plan.now.views ≤ S.capacity s) sealers.items }
    ensures play { IfOk result (λ run. run ≡ play_of (C.meaning checker.now) plan.now
        (signers_of S.Sealer sealers.items)) }
    ensures readable { IfOk result (λ run. All (λ journal. AreReadable journal.entries) run.journals) }
{
    let seats = seats_of(alloc, plan, sealers)?;
    let mut network = network_of(alloc, plan, seats)?;
    let mut keepers = Keepers::<SteadyKeeper>::none(alloc);
    match run(&mut network, &mut keepers, plan, checker) {
        Ok(()) => record_of(plan, network),
        Err(_) => Err(NoMemory),
    }
}

/// Makes steps until the run ends. Each step but the last delivers an envelope or is a tick, so `most_steps` bounds
/// them.
#[tactic(auto, using(crate::proofs::LoopSteps::run_more, crate::proofs::LoopSteps::run_over))]
fn run<S: Sealer, K: Keeper, C: Checker>(
    network: &mut Network<S>,
    keepers: &mut Keepers<K>,
    plan: &Plan,
    checker: &C,
) -> Result<(), StepFault>
    ensures { OnOk result (world_of (meaning S.replica S.gives) network.new
        ≡ run_for (C.meaning checker.now) plan.now (world_of (meaning S.replica S.gives) network.old) (steps_of plan.now)) }
{
    for step in 0..most_steps(plan) {
        if !network.step(keepers, plan, checker)? {
            return Ok(());
        }
    }
    Ok(())
}

/// The maximum of steps of a run: each but the last delivers an envelope or is a tick.
pub fn most_steps(plan: &Plan) -> u64
    ensures { result ≡ steps_of plan.now }
{
    u64::from(plan.turns) + u64::from(plan.ticks) + 1
}

/// The record of a run that ended.
#[tactic(auto, using(crate::proofs::Shown::record_shown))]
pub fn record_of<S: Sealer>(plan: &Plan, network: Network<S>) -> Result<RunRecord, NoMemory>
    ensures shown { IfOk result (λ run. run ≡ record_of plan.now (world_of (meaning S.replica S.gives) network)) }
    ensures readable { IfOk result (λ run. All (λ journal. AreReadable journal.entries) run.journals) }
{
    let Network {
        alloc,
        seats,
        turns,
        ticks,
        ..
    } = network;
    let arrivals = arrivals_of(alloc, seats.as_slice())?;
    let heads = heads_of(alloc, seats.as_slice())?;
    let batches = batches_of(alloc, seats.as_slice())?;
    let journals = journals_of(alloc, seats)?;
    Ok(RunRecord {
        setting: plan.setting,
        faulty: plan.faulty,
        arrivals,
        journals,
        heads,
        batches,
        turns,
        ticks,
    })
}
