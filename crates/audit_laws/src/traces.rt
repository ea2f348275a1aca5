//! What holds of the run that an audited trace records.
ghost use Rattle.std.specs.Prelude.{◌≡◌, ◌<◌, ℕ, List, All, None};
ghost use Rattle.run_record.specs.declared.record.RunRecord.{RunRecord};
ghost use Rattle.node_core.specs.Rows.{Check};
ghost use Rattle.headline_laws.specs.Headline.{IsOrdered};
ghost use Rattle.headline_laws.specs.Premises.{IsLawfulRun};
ghost use Rattle.audit_core.specs.Unlawful.{first_unlawful_of};
ghost use Rattle.trace_form.specs.declared.trace.Trace.{Trace};
ghost use Rattle.trace_form.specs.Fitting.{Traces};
ghost use Rattle.audit_laws.specs.Audited.{IsDoneOrStalled, IsReportedReadably, ListFinals};

use audit_core::the_first_place_is_found;
use count_set::distinct_replicas_are_counted;
use headline_laws::{the_headline_holds, verdicts_show_sound_records};
use wire_view::what_is_read_is_spelled;

/// What a trace records as delivered to an honest replica is made of the trace's bytes, so what it reads as can be
/// written.
pub fn traces_hold_readable_events()
    ensures { (trace : Trace) (bytes : List ℕ) → Traces trace bytes → All (λ b. b < 256) bytes → IsReportedReadably trace.run }
{
    what_is_read_is_spelled();
}

/// If no place of a trace is unlawful, it records a lawful run: the setting is valid, at most f replicas are faulty,
/// arrivals are distinct, and each honest replica obeys the protocol.
pub fn audited_traces_are_lawful()
    ensures reported { (fits : Check) (trace : Trace) (bytes : List ℕ) → Traces trace bytes → IsReportedReadably trace.run
        → first_unlawful_of fits trace.run ≡ None → IsLawfulRun fits trace.run }
    // That what was delivered is readable follows from the bytes.
    ensures read { (fits : Check) (trace : Trace) (bytes : List ℕ) → Traces trace bytes → All (λ b. b < 256) bytes
        → first_unlawful_of fits trace.run ≡ None → IsLawfulRun fits trace.run }
{
    the_first_place_is_found();
    distinct_replicas_are_counted();
    traces_hold_readable_events();
}

/// If no place of a trace is unlawful, each honest batch list is that of the chain of its replica's commit. If the
/// verdict is also Done or Stalled, the headline holds: honest batch lists agree, hold each transaction once, and are
/// complete and fair.
pub fn audited_runs_are_ordered()
    ensures listed { (fits : Check) (run : RunRecord) → first_unlawful_of fits run ≡ None → ListFinals run }
    ensures reported { (fits : Check) (trace : Trace) (bytes : List ℕ) → Traces trace bytes → IsReportedReadably trace.run
        → first_unlawful_of fits trace.run ≡ None → IsDoneOrStalled fits trace.run → IsOrdered trace.run }
    ensures read { (fits : Check) (trace : Trace) (bytes : List ℕ) → Traces trace bytes → All (λ b. b < 256) bytes
        → first_unlawful_of fits trace.run ≡ None → IsDoneOrStalled fits trace.run → IsOrdered trace.run }
{
    the_first_place_is_found();
    audited_traces_are_lawful();
    verdicts_show_sound_records();
    the_headline_holds();
}
