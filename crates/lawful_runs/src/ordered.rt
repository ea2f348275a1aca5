//! The headline on runs of plans.
ghost use Rattle.std.specs.Prelude.{◌≡◌, ℕ, ◌⊎◌, List, Ok};
ghost use Rattle.fault_script.specs.Sealing.{Signer};
ghost use Rattle.node_core.specs.Rows.{Check};
ghost use Rattle.run_record.specs.declared.record.RunRecord.{RunRecord};
ghost use Rattle.run_record.specs.declared.verdict.Verdict.TheVariants.{Done, Stalled};
ghost use Rattle.plan_text.specs.declared.plan.Plan.{Plan};
ghost use Rattle.plan_text.specs.Plans.{plan_of};
ghost use Rattle.plan_text.specs.Rules.{KeepsRules};
ghost use Rattle.headline_laws.specs.Headline.{IsOrdered};
ghost use Rattle.headline_laws.specs.Premises.{IsLawfulRun, IsSound};
ghost use Rattle.run_verdict.specs.Verdicts.{verdict_of};
ghost use Rattle.lawful_runs.specs.RunClaims.{PlayIsLawful};
ghost use Rattle.lawful_runs.specs.Lawful.{AreMadeFor};

use crate::arrivals::plans_have_proper_arrival_lists;
use crate::lawful::plays_are_lawful;
use headline_laws::{the_headline_holds, verdicts_show_sound_records};

/// The run of a plan that was read is lawful. If its record shows no forged seal and no two blocks with the same
/// digest, as when the verdict is Done or Stalled, the headline holds of it.
pub fn runs_of_plans_are_ordered()
    ensures lawful { (fits : Check) (bytes : List ℕ) (plan : Plan) (sealers : List Signer) → plan_of bytes ≡ Ok plan → KeepsRules plan
        → AreMadeFor plan sealers → PlayIsLawful fits plan sealers }
    ensures sound { (fits : Check) (run : RunRecord) → IsSound fits run → IsOrdered run }
    ensures audited { (fits : Check) (run : RunRecord) → IsLawfulRun fits run
        → (verdict_of fits run ≡ Done) ⊎ (verdict_of fits run ≡ Stalled) → IsOrdered run }
{
    plans_have_proper_arrival_lists();
    plays_are_lawful();
    the_headline_holds();
    verdicts_show_sound_records();
}
