//! What a verdict implies for its record.
ghost use Rattle.std.specs.Prelude.{◌≡◌, ◌⊎◌, ◌↔◌};
ghost use Rattle.run_record.specs.declared.record.RunRecord.{RunRecord};
ghost use Rattle.run_record.specs.declared.verdict.Verdict.TheVariants.{Done, Stalled};
ghost use Rattle.node_core.specs.Rows.{Check};
ghost use Rattle.run_verdict.specs.Verdicts.{verdict_of};
ghost use Rattle.headline_laws.specs.Premises.{IsLawfulRun, IsSound};

use run_verdict::verdicts_show_what_is_so;

/// The record of a lawful run is sound exactly where its verdict is Done or Stalled.
pub fn verdicts_show_sound_records()
    ensures { (fits : Check) (run : RunRecord) → IsLawfulRun fits run → ((verdict_of fits run ≡ Done) ⊎ (verdict_of fits run ≡ Stalled)) ↔ IsSound fits run }
{
    verdicts_show_what_is_so();
}
