//! Replicas that are stopped and restarted.
ghost use Rattle.std.specs.Prelude.{◌≡◌, ◌≤◌, ◌<◌, ◌+◌, ◌-◌, ◌*◌, ◌^◌, ℕ, Some, false, slice_get, IfErr, IfOk, OnOk};
ghost use Rattle.count_set.specs.Sets.{is_among};
ghost use Rattle.plan_text.specs.Rules.{KeepsRules};
ghost use Rattle.seal_kit.specs.Seals.{capacity_of};
ghost use Rattle.replay_run.specs.Kept.{IsKeepFault, meant};
ghost use Rattle.replay_run.specs.World.{world_of};
ghost use Rattle.replay_run.specs.declared.keepers.Keeping.{Keeping};
ghost use Rattle.replica_seat.specs.Seats.{meaning};
ghost use Rattle.restart_run.specs.Counts.{is_due, starts_before};
ghost use Rattle.restart_run.specs.Started.{AreStarted, IsHere, IsUnderWay, OpensAgainAt, Starts, ground, none_failed, once_more};

use crate::opening::reopened;
use durable_node::Keeper;
use node_core::Node;
use plan_text::{Plan, Restart};
use replay_run::{Keepers, Network, StepFault};
use seal_kit::{Checker, SealGrower, Sealer};
use std::alloc::Global;

/// Makes each restart of the plan whose turn is at least `from`, and is reached.
pub(crate) fn restart_due<M: SealGrower, C: Checker, K: Keeper>(
    alloc: Global,
    network: &mut Network<M::S>,
    keepers: &mut Keepers<K>,
    plan: &Plan,
    checker: &C,
    maker: &M,
    from: u64,
) -> Result<(), StepFault>
    requires rules { KeepsRules plan.now }
    requires near { from ≤ network.old.turns + 1 }
    requires kept { AreStarted (ground (meant K.Keeper) (meaning M.S.replica M.S.gives) (C.meaning checker.now) plan.now (M.gives maker.now))
        (starts_before plan.now.restarts from) none_failed keepers.old network.old }
    ensures world { OnOk result (world_of (meaning M.S.replica M.S.gives) network.new ≡ world_of (meaning M.S.replica M.S.gives) network.old) }
    ensures kept { Starts (ground (meant K.Keeper) (meaning M.S.replica M.S.gives) (C.meaning checker.now) plan.now (M.gives maker.now))
        (starts_before plan.now.restarts from)
        (starts_before plan.now.restarts (network.old.turns + 1)) keepers.old network.old result keepers.new network.new }
{
    let turns = network.turns;
    for restart in plan.restarts.as_slice() {
        if is_due(from, turns, restart) {
            let replica = restart.replica;
            restart_at(alloc, network, keepers, plan, checker, maker, replica)?;
        }
    }
    Ok(())
}

fn is_due(from: u64, turns: u32, restart: &Restart) -> bool
    ensures { result ≡ is_due from turns restart.now }
{
    from <= u64::from(restart.turn) && restart.turn <= turns
}

/// Stops the honest replica at a place and restarts it, with a new sealer.
fn restart_at<M: SealGrower, C: Checker, K: Keeper>(
    alloc: Global,
    network: &mut Network<M::S>,
    keepers: &mut Keepers<K>,
    plan: &Plan,
    checker: &C,
    maker: &M,
    replica: u32,
) -> Result<(), StepFault>
    requires below { replica < plan.now.setting.n }
    requires honest { is_among plan.now.faulty replica ≡ false }
    requires room { 5 * plan.now.views ≤ capacity_of plan.now.height }
    requires kept { IsUnderWay
        (ground (meant K.Keeper) (meaning M.S.replica M.S.gives) (C.meaning checker.now) plan.now (M.gives maker.now)) keepers.old network.old }
    ensures world { OnOk result (world_of (meaning M.S.replica M.S.gives) network.new ≡ world_of (meaning M.S.replica M.S.gives) network.old) }
    ensures kept { (starts : ℕ → ℕ) → Starts (ground (meant K.Keeper) (meaning M.S.replica M.S.gives) (C.meaning checker.now) plan.now (M.gives maker.now))
        starts (once_more replica starts) keepers.old network.old result keepers.new network.new }
{
    let sealer = maker.make_one(plan.seed, plan.height, plan.setting.n(), replica)?;
    let node = reopen_at(alloc, keepers, plan, sealer, checker, replica)?;
    network.reseat(replica, node);
    Ok(())
}

/// Stops and reopens the replica whose keeper is at a place.
fn reopen_at<S: Sealer, C: Checker, K: Keeper>(
    alloc: Global,
    keepers: &mut Keepers<K>,
    plan: &Plan,
    sealer: S,
    checker: &C,
    replica: u32,
) -> Result<Node<S>, StepFault>
    // A new sealer of the replica, with room for all views, and a keeper that may be opened once more.
    requires number { S.replica sealer ≡ replica }
    requires below { replica < plan.now.setting.n }
    requires room { 5 * plan.now.views ≤ S.capacity sealer }
    requires fresh { S.made sealer ≡ 0 }
    requires countable { (k : Keeping K) → slice_get keepers.old replica ≡ Some k → K.openings k.keeper < 2 ^ 64 - 1 }
    // The node and the log are those that the keeper's bytes lead to, and the sealer gives what it gave.
    ensures again { OpensAgainAt (meant K.Keeper) (C.meaning checker.now) plan.now replica (S.gives sealer) (S.capacity sealer)
        keepers.old result keepers.new }
    ensures gives { IfOk result (λ node. S.gives node.sealer ≡ S.gives sealer) }
    ensures replica { IfOk result (λ node. S.replica node.sealer ≡ replica) }
    ensures fault { IfErr result (IsKeepFault (meant K.Keeper) replica keepers.old keepers.new) }
    // The replica has a keeper.
    ensures here { OnOk result (IsHere keepers.old replica) }
{
    let place = replica as usize;
    if place >= keepers.keepers.len() {
        return Err(StepFault::NoMemory);
    }
    let keeping = &mut keepers.keepers[place];
    reopened(alloc, plan, sealer, checker, replica, keeping)
}
