//! Runs of plans are lawful.
ghost use Rattle.std.specs.Prelude.{List};
ghost use Rattle.fault_script.specs.Sealing.{Signer};
ghost use Rattle.node_core.specs.Rows.{Check};
ghost use Rattle.plan_text.specs.declared.plan.Plan.{Plan};
ghost use Rattle.plan_text.specs.Rules.{KeepsRules};
ghost use Rattle.lawful_runs.specs.RunClaims.{HasArrivalLists, PlayIsLawful};
ghost use Rattle.lawful_runs.specs.Lawful.{AreMadeFor};

use journal_laws::{journals_are_lawful, journals_show_where_nodes_stand};

/// The record of the run of a plan is lawful: at most f replicas are faulty, and the part of each honest one obeys the
/// protocol over its arrival list.
pub fn plays_are_lawful()
    ensures { (fits : Check) (plan : Plan) (sealers : List Signer) → KeepsRules plan → AreMadeFor plan sealers
        → HasArrivalLists plan → PlayIsLawful fits plan sealers }
{
    journals_are_lawful();
    journals_show_where_nodes_stand();
}
