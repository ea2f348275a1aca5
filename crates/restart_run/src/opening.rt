//! Replicas that are opened over their keepers.
ghost use Rattle.std.specs.Prelude.{◌≡◌, ◌≤◌, ◌<◌, ◌-◌, ◌*◌, ◌^◌, ℕ, true, IfErr, IfOk, OnOk, length};
ghost use Rattle.durable_node.specs.Check.{header_digest};
ghost use Rattle.replay_run.specs.Kept.{IsLogFault, header_at, meant};
ghost use Rattle.replay_run.specs.Open.{IsOpen};
ghost use Rattle.restart_run.specs.Logged.{IsPlayFault};
ghost use Rattle.restart_run.specs.New.{IsBegun, IsNew};
ghost use Rattle.restart_run.specs.Started.{OpensAgain};

use crate::PlayFault;
use durable_node::{Keeper, logs_are_read_back, logs_say_whose_they_are, new_log, opened};
use node_core::Node;
use plan_text::Plan;
use replay_run::{Keeping, StepFault, fault_of, keys_of};
use seal_kit::{Checker, Sealer};
use std::alloc::Global;

/// The keeper of a replica at the start of a run. The keeper of an honest replica is opened, with the replica's header.
/// A faulty replica logs nothing, because its deeds use its sealer.
pub(crate) fn begun_keeper<K: Keeper>(
    alloc: Global,
    plan: &Plan,
    replica: u32,
    keeper: K,
) -> Result<Keeping<K>, PlayFault<K>>
    requires { IsNew (meant K.Keeper) K.begun keeper }
    ensures begun { IfOk result (IsBegun (meant K.Keeper) plan.now (K.faults keeper) replica) }
    ensures open { IfOk result (IsOpen K.begun) }
    ensures fault { (least : ℕ → ℕ) → least replica ≤ K.faults keeper → IfErr result (IsPlayFault (meant K.Keeper) least) }
{
    let mut keeper = keeper;
    let on = !plan.faulty.has(replica);
    let mut digest = [0u8; 32];
    if on {
        match begun_log(alloc, plan, replica, &mut keeper) {
            Ok(start) => digest = start,
            Err(StepFault::Keep { .. }) => return Err(PlayFault::Keep { replica, keeper }),
            Err(StepFault::NoMemory) => return Err(PlayFault::NoMemory),
        }
    }
    Ok(Keeping { keeper, digest, on })
}

/// Opens the keeper of an honest replica. It then holds the header of the replica's log. Returns its digest.
fn begun_log<K: Keeper>(
    alloc: Global,
    plan: &Plan,
    replica: u32,
    keeper: &mut K,
) -> Result<[u8; 32], StepFault>
    requires { IsNew (meant K.Keeper) K.begun keeper.old }
    // The keeper holds the header alone, which is durable, and was opened once.
    ensures header { OnOk result (K.bytes keeper.new ≡ header_at plan.now replica) }
    ensures digest { IfOk result (λ digest. digest ≡ header_digest (header_at plan.now replica)) }
    ensures durable_size { OnOk result (K.durable_size keeper.new ≡ length (K.bytes keeper.new)) }
    ensures openings { OnOk result (K.openings keeper.new ≡ 1) }
    ensures begun { OnOk result (K.begun keeper.new ≡ true) }
    // What has failed, if anything.
    ensures later { K.faults keeper.old ≤ K.faults keeper.new }
    ensures fault { IfErr result (IsLogFault replica (K.faults keeper.old) (K.faults keeper.new)) }
{
    match new_log(
        alloc,
        plan.setting,
        plan.views,
        replica,
        plan.height,
        &keys_of(plan),
        keeper,
    ) {
        Ok(digest) => Ok(digest),
        Err(fault) => Err(fault_of(replica, fault)),
    }
}

/// Stops the replica and reopens it. Its node has the state that the log of its keeper leads to, which is the state
/// that the replica had. The sealer is a new one, and gives the seals that the replica gave.
pub(crate) fn reopened<S: Sealer, C: Checker, K: Keeper>(
    alloc: Global,
    plan: &Plan,
    sealer: S,
    checker: &C,
    replica: u32,
    keeping: &mut Keeping<K>,
) -> Result<Node<S>, StepFault>
    // A new sealer of the replica, with room for all views, and a keeper that may be opened once more.
    requires number { S.replica sealer ≡ replica }
    requires below { replica < plan.now.setting.n }
    requires room { 5 * plan.now.views ≤ S.capacity sealer }
    requires fresh { S.made sealer ≡ 0 }
    requires countable { K.openings keeping.old.keeper < 2 ^ 64 - 1 }
    // The node and the log are those that the keeper's bytes lead to, and the sealer gives what it gave.
    ensures again { OpensAgain (meant K.Keeper) (C.meaning checker.now) plan.now replica (S.gives sealer) (S.capacity sealer)
        keeping.old.keeper result keeping.new.keeper keeping.new.digest }
    ensures gives { IfOk result (λ node. S.gives node.sealer ≡ S.gives sealer) }
    ensures replica { IfOk result (λ node. S.replica node.sealer ≡ replica) }
    // Whether the replica runs, and what has failed.
    ensures on { OnOk result (keeping.new.on ≡ true) }
    ensures open { IsOpen K.begun keeping.new }
    ensures later { K.faults keeping.old.keeper ≤ K.faults keeping.new.keeper }
    ensures fault { IfErr result (IsLogFault replica (K.faults keeping.old.keeper) (K.faults keeping.new.keeper)) }
{
    keeping.on = false;
    keeping.keeper.stop();
    logs_are_read_back();
    logs_say_whose_they_are();
    match opened(
        alloc,
        plan.setting,
        plan.views,
        plan.height,
        &keys_of(plan),
        sealer,
        checker,
        &mut keeping.keeper,
    ) {
        Ok(recovered) => {
            let (node, digest) = recovered;
            keeping.digest = digest;
            keeping.on = true;
            Ok(node)
        }
        Err(fault) => Err(fault_of(replica, fault)),
    }
}
