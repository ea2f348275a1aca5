//! Audits and verdicts read nothing that a trace leaves out.
ghost use Rattle.std.specs.Prelude.{◌≡◌, ◌≤◌, length, None};
ghost use Rattle.run_record.specs.declared.record.RunRecord.{RunRecord};
ghost use Rattle.node_core.specs.Rows.{Check};
ghost use Rattle.run_verdict.specs.Verdicts.{verdict_of};
ghost use Rattle.headline_laws.specs.Premises.{IsLawfulRun};
ghost use Rattle.audit_core.specs.Unlawful.{first_unlawful_of};
ghost use Rattle.trace_form.specs.declared.opening.Span.{Span};
ghost use Rattle.trace_form.specs.Contents.{bared};

use audit_core::the_first_place_is_found;

/// The first unlawful place of the bare record is that of the record: no rule reads what a turn sent, nor anything of a
/// faulty replica.
pub fn bare_records_are_audited_alike()
    ensures { (fits : Check) (run : RunRecord) (span : Span) → first_unlawful_of fits (bared run span).run ≡ first_unlawful_of fits run }
{}

/// A lawful run has no unlawful place, neither in its record nor in its trace.
pub fn lawful_runs_pass()
    ensures record_passes { (fits : Check) (run : RunRecord) → IsLawfulRun fits run → first_unlawful_of fits run ≡ None }
    ensures trace_passes { (fits : Check) (run : RunRecord) (span : Span) → IsLawfulRun fits run → first_unlawful_of fits (bared run span).run ≡ None }
    // So the run is lawful as its trace records it.
    ensures stays_lawful { (fits : Check) (run : RunRecord) (span : Span) → IsLawfulRun fits run → IsLawfulRun fits (bared run span).run }
{
    the_first_place_is_found();
    bare_records_are_audited_alike();
}

/// The verdict on the bare record is that on the record, if each replica has a list of batches.
pub fn bare_records_have_one_verdict()
    ensures { (fits : Check) (run : RunRecord) (span : Span) → run.setting.n ≤ length run.batches
        → verdict_of fits (bared run span).run ≡ verdict_of fits run }
{}
