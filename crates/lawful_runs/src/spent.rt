//! Why a run ends before all due transactions are finalised.
ghost use Rattle.std.specs.Prelude.{◌≡◌, List, length};
ghost use Rattle.fault_script.specs.Sealing.{Signer};
ghost use Rattle.node_core.specs.Rows.{Check};
ghost use Rattle.plan_text.specs.declared.plan.Plan.{Plan};
ghost use Rattle.lawful_runs.specs.RunClaims.{IsSpentIfStalled};

use replay_run::runs_end_for_a_cause;

/// A run whose verdict is Stalled had all turns that its plan allows; or nothing was in transit, and it had all ticks.
pub fn stalled_runs_were_spent()
    ensures { (fits : Check) (plan : Plan) (sealers : List Signer) → length sealers ≡ plan.setting.n
        → IsSpentIfStalled fits plan sealers }
{
    runs_end_for_a_cause();
}
