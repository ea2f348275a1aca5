//! Laws on every run.
ghost use Rattle.std.specs.Prelude.{◌≡◌, ◌+◌, ℕ, List, length, map};
ghost use Rattle.fault_script.specs.Sealing.{Signer};
ghost use Rattle.run_record.specs.Done.{due_of};
ghost use Rattle.node_core.specs.Rows.{Check};
ghost use Rattle.plan_text.specs.declared.plan.Plan.{Plan};
ghost use Rattle.replay_run.specs.Over.{GetsOn, IsOver, last_of};
ghost use Rattle.replay_run.specs.Play.{run_for, start_of, steps_of};
ghost use Rattle.replay_run.specs.Step.{step};
ghost use Rattle.replay_run.specs.World.{World};

/// A run ends by its own rules within the steps that are counted for it: more steps change nothing.
pub fn runs_end()
    ensures { (fits : Check) (plan : Plan) (sealers : List Signer) (more : ℕ)
        → run_for fits plan (start_of plan sealers) (steps_of plan + more) ≡ run_for fits plan (start_of plan sealers) (steps_of plan) }
{}

/// A run ends only for a cause: it is done, or it had its turns, or nothing is in transit and it had its ticks. The due
/// transactions of the run are those that are due by its arrival lists. There is one list for the replica of each
/// sealer.
pub fn runs_end_for_a_cause()
    ensures over { (fits : Check) (plan : Plan) (sealers : List Signer) → IsOver plan (last_of fits plan sealers) }
    ensures due { (fits : Check) (plan : Plan) (sealers : List Signer) → (last_of fits plan sealers).due
        ≡ due_of plan.setting.n plan.faulty (map (λ r. r.feed.txs) (last_of fits plan sealers).replicas) }
    ensures count { (fits : Check) (plan : Plan) (sealers : List Signer) → length (last_of fits plan sealers).replicas ≡ length sealers }
{}

/// A step never decreases the count of turns. A step that ends the run adds no turn. A step after which the run
/// continues leaves fewer turns and ticks.
pub fn steps_get_on()
    ensures { (fits : Check) (plan : Plan) (w : World) → GetsOn plan w (step fits plan w) }
{}
