//! Records of exact runs.
ghost use Rattle.std.specs.Prelude.{List};
ghost use Rattle.fault_script.specs.Sealing.{Signer};
ghost use Rattle.node_core.specs.Rows.{Check};
ghost use Rattle.plan_text.specs.declared.plan.Plan.{Plan};
ghost use Rattle.plan_text.specs.Rules.{KeepsRules};
ghost use Rattle.replay_run.specs.Play.{play_of};
ghost use Rattle.lawful_runs.specs.Lawful.{AreMadeFor};
ghost use Rattle.lawful_runs.specs.RunClaims.{HasArrivalLists};
ghost use Rattle.trace_form.specs.Contents.{span_of};
ghost use Rattle.trace_form.specs.declared.keys.Keys.TheVariants.{Seed};
ghost use Rattle.trace_laws.specs.Form.{FitsForm};

use lawful_runs::honest_replicas_run_their_nodes;

/// The record of the exact run of a plan fits the form of its trace.
pub fn exact_runs_fit_the_form()
    ensures { (fits : Check) (plan : Plan) (sealers : List Signer) → KeepsRules plan → AreMadeFor plan sealers → HasArrivalLists plan
        → FitsForm (play_of fits plan sealers) (span_of plan.views (Seed plan.seed) plan.height) }
{
    honest_replicas_run_their_nodes();
}
