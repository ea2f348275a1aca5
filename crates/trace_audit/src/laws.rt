//! What an audit that finds no fault implies.
ghost use Rattle.std.specs.Prelude.{◌≡◌, ◌<◌, ℕ, List, All};
ghost use Rattle.audit_core.specs.declared.finding.Finding.TheVariants.{Obeys};
ghost use Rattle.trace_audit.specs.Audits.{HasAudited};
ghost use Rattle.trace_audit.specs.Promises.{IsPromised};
ghost use Rattle.trace_audit.specs.declared.auditing.Audited.{Audited};
ghost use Rattle.trace_audit.specs.declared.expected.ExpectedRun.{ExpectedRun};

use audit_laws::{audited_runs_are_ordered, audited_traces_are_lawful};
use headline_laws::verdicts_show_sound_records;
use trace_form::what_is_read_is_spelled;

/// If an audit finds that each honest replica obeys, the trace records a sound run, and the headline holds of it.
pub fn passing_traces_are_ordered()
    ensures { (bytes : List ℕ) (run : ExpectedRun) (publics : List (List ℕ)) (audited : Audited) → All (λ b. b < 256) bytes
        → HasAudited bytes run publics audited → audited.finding ≡ Obeys → IsPromised bytes run publics audited.faulty }
{
    what_is_read_is_spelled();
    audited_traces_are_lawful();
    audited_runs_are_ordered();
    verdicts_show_sound_records();
}
