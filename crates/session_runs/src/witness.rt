//! Five replicas that end a session.
ghost use Rattle.std.specs.Prelude.{◌≡◌, ℕ};
ghost use Rattle.node_core.specs.Rows.{Check};
ghost use Rattle.node_core.specs.Reported.{Gives};
ghost use Rattle.run_record.specs.declared.record.RunRecord.{RunRecord};
ghost use Rattle.plan_text.specs.Rules.{KeepsRules};
ghost use Rattle.progress_laws.specs.Clean.{IsCleanPlan, SealsFit, run_with};
ghost use Rattle.session_runs.specs.TwoSessions.{EndsFirst, marker_plan};

use headline_laws::a_sound_record_may_be_idle;
use lawful_runs::plays_are_lawful;
use progress_laws::clean_runs_are_done;
use run_verdict::verdicts_show_what_is_so;
use session_laws::{cuts_agree, own_histories_serve};

/// The five replicas of a clean plan each receive the marker of the first session and another transaction. Assume that
/// the seals of its sealers fit, that what was delivered can be written, and that no two blocks of the run have the same
/// digest. Then the run is the first of two sessions of a service, each replica has ended it, and what it carries over
/// has arrived in the second. So an auditor's checks pass.
pub fn a_service_may_end_sessions()
    ensures plan { KeepsRules marker_plan × IsCleanPlan marker_plan }
    ensures run { (fits : Check) (gives : ℕ → Gives) (run : RunRecord) → SealsFit fits 5 gives → run ≡ run_with fits gives marker_plan
        → EndsFirst fits run }
{
    clean_runs_are_done();
    plays_are_lawful();
    verdicts_show_what_is_so();
    a_sound_record_may_be_idle();
    own_histories_serve();
    cuts_agree();
}
