//! Honest replicas of runs.
ghost use Rattle.std.specs.Prelude.{ℕ, List};
ghost use Rattle.fault_script.specs.Sealing.{Signer};
ghost use Rattle.node_core.specs.Rows.{Check};
ghost use Rattle.plan_text.specs.declared.plan.Plan.{Plan};
ghost use Rattle.replica_seat.specs.Seats.{Replica};
ghost use Rattle.lawful_runs.specs.RunClaims.{WhereHonest, WhereSealer, WhereSealers};
ghost use Rattle.lawful_runs.specs.Honest.{IsRun, IsNeverSpent, capacity_at};

use journal_laws::sealers_are_never_spent;

/// After any number of steps an honest replica's journal is that of its node, with its own sealer, on the events that
/// it was given, all of them from replicas of the plan. Its node is in the state after them.
pub fn honest_replicas_run_their_nodes()
    ensures { (fits : Check) (plan : Plan) (sealers : List Signer) (steps at : ℕ) (r : Replica)
        → WhereSealers plan sealers (WhereHonest fits plan sealers steps at r (IsRun fits plan at (capacity_at sealers at) r)) }
{}

/// After any number of steps no turn of an honest replica was left without a seal, and its sealer has made at most five
/// for each view: a plan has no more views than its sealers suffice for.
pub fn honest_sealers_are_never_spent()
    ensures { (fits : Check) (plan : Plan) (sealers : List Signer) (steps at : ℕ) (s : Signer) (r : Replica)
        → WhereSealer plan sealers at s (WhereHonest fits plan sealers steps at r (IsNeverSpent fits plan s r)) }
{
    sealers_are_never_spent();
}
