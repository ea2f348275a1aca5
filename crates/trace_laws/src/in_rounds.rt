//! Records of runs in rounds.
ghost use Rattle.std.specs.Prelude.{ℕ};
ghost use Rattle.node_core.specs.Rows.{Check};
ghost use Rattle.node_core.specs.Reported.{Gives};
ghost use Rattle.run_record.specs.declared.record.RunRecord.{RunRecord};
ghost use Rattle.plan_text.specs.declared.plan.Plan.{Plan};
ghost use Rattle.plan_text.specs.Rules.{KeepsRules};
ghost use Rattle.lawful_runs.specs.Fed.{HaveArrivalLists};
ghost use Rattle.round_rules.specs.Ran.{Ran};
ghost use Rattle.trace_form.specs.Contents.{span_of};
ghost use Rattle.trace_form.specs.declared.keys.Keys.TheVariants.{Seed};
ghost use Rattle.trace_laws.specs.Form.{FitsForm};

/// The record of a run in rounds fits the form of its trace.
pub fn runs_in_rounds_fit_the_form()
    ensures { (fits : Check) (plan : Plan) (gives : ℕ → Gives) (capacity : ℕ) → KeepsRules plan
        → (run : RunRecord) → HaveArrivalLists plan run → Ran fits plan gives capacity run
        → FitsForm run (span_of plan.views (Seed plan.seed) plan.height) }
{}
