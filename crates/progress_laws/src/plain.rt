//! Runs that meet the premises of the headline and finalise transactions.
ghost use Rattle.std.specs.Prelude.{◌≡◌, ℕ};
ghost use Rattle.seq_base.specs.Setting.{IsValid, Parameters};
ghost use Rattle.node_core.specs.Rows.{Check};
ghost use Rattle.node_core.specs.Reported.{Gives};
ghost use Rattle.run_record.specs.declared.record.RunRecord.{RunRecord};
ghost use Rattle.plan_text.specs.Rules.{KeepsRules};
ghost use Rattle.progress_laws.specs.Clean.{IsCleanPlan, SealsFit, run_with};
ghost use Rattle.progress_laws.specs.Plain.{two_each};
ghost use Rattle.progress_laws.specs.ProgressClaims.{HoldsBothInOrder};

use crate::progress::clean_runs_are_done;
use headline_laws::the_headline_holds;
use lawful_runs::plays_are_lawful;
use run_verdict::verdicts_show_what_is_so;

/// Every valid setting has a clean plan. Assume that its sealers' seals fit, that what was delivered to its replicas
/// can be written, and that no two blocks in its run have the same digest. Then its run is sound, and all honest batch
/// lists hold two transactions, each at the same place.
pub fn every_setting_has_a_run_in_order()
    ensures plan { (s : Parameters) → IsValid s → KeepsRules (two_each s) × IsCleanPlan (two_each s) }
    ensures run { (s : Parameters) (fits : Check) (gives : ℕ → Gives) (run : RunRecord) → IsValid s → SealsFit fits s.n gives
        → run ≡ run_with fits gives (two_each s) → HoldsBothInOrder fits run }
{
    clean_runs_are_done();
    plays_are_lawful();
    the_headline_holds();
    verdicts_show_what_is_so();
}
