//! Runs in rounds are lawful, and their honest sealers are never exhausted.
ghost use Rattle.std.specs.Prelude.{ℕ};
ghost use Rattle.node_core.specs.Rows.{Check};
ghost use Rattle.node_core.specs.Reported.{Gives};
ghost use Rattle.run_record.specs.declared.record.RunRecord.{RunRecord};
ghost use Rattle.plan_text.specs.declared.plan.Plan.{Plan};
ghost use Rattle.plan_text.specs.Rules.{KeepsRules};
ghost use Rattle.headline_laws.specs.Premises.{IsLawfulRun};
ghost use Rattle.round_rules.specs.Ran.{Ran};
ghost use Rattle.lawful_runs.specs.Fed.{WhereFed};
ghost use Rattle.lawful_runs.specs.RoundsSpent.{IsNeverSpentIn, WhereRan};

use journal_laws::{journals_are_lawful, journals_show_where_nodes_stand, sealers_are_never_spent};

/// The record of a run in rounds is lawful, if its arrival lists are those of logs and what was delivered to its
/// replicas can be written: at most f replicas are faulty, and the part of each honest one obeys the protocol over its
/// arrival list.
pub fn runs_in_rounds_are_lawful()
    ensures { (fits : Check) (plan : Plan) (gives : ℕ → Gives) (capacity : ℕ) (run : RunRecord)
        → KeepsRules plan → WhereFed plan run (Ran fits plan gives capacity run → IsLawfulRun fits run) }
{
    journals_are_lawful();
    journals_show_where_nodes_stand();
}

/// No turn of an honest replica of a run in rounds was left without a seal, and its sealer has made at most five for
/// each view: a plan has no more views than its sealers suffice for.
pub fn honest_sealers_in_rounds_are_never_spent()
    ensures { (fits : Check) (plan : Plan) (gives : ℕ → Gives) (capacity : ℕ) (run : RunRecord)
        → WhereRan fits plan gives capacity run (IsNeverSpentIn fits plan gives capacity run) }
{
    sealers_are_never_spent();
}
