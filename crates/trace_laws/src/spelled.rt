//! Traces of lawful runs.
ghost use Rattle.node_core.specs.Rows.{Check};
ghost use Rattle.run_record.specs.declared.record.RunRecord.{RunRecord};
ghost use Rattle.headline_laws.specs.Premises.{IsLawfulRun};
ghost use Rattle.trace_form.specs.declared.opening.Span.{Span};
ghost use Rattle.trace_laws.specs.Form.{FitsForm, IsSpelled};

use chain_state::{a_state_stands_for_its_chain, proposals_have_first_edges};

/// The text that is written for a lawful run that fits the form spells its trace, if it has fewer than 2^32 bytes, so
/// that each count and each length is within its field.
pub fn lawful_runs_are_spelled()
    ensures { (fits : Check) (run : RunRecord) (span : Span) → IsLawfulRun fits run → FitsForm run span → IsSpelled run span }
{
    proposals_have_first_edges();
    a_state_stands_for_its_chain();
}
