//! Runs of clean plans, and of plans in which nothing arrives.
ghost use Rattle.std.specs.Prelude.{◌≡◌, ℕ, List, Ok};
ghost use Rattle.fault_script.specs.Sealing.{Signer};
ghost use Rattle.node_core.specs.Rows.{Check};
ghost use Rattle.node_core.specs.Reported.{Gives};
ghost use Rattle.plan_text.specs.declared.plan.Plan.{Plan};
ghost use Rattle.plan_text.specs.Plans.{plan_of};
ghost use Rattle.plan_text.specs.Rules.{KeepsRules};
ghost use Rattle.lawful_runs.specs.RunClaims.{HasArrivalLists};
ghost use Rattle.lawful_runs.specs.Lawful.{AreMadeFor};
ghost use Rattle.replay_run.specs.Play.{play_of};
ghost use Rattle.progress_laws.specs.Clean.{BringsNothing, HasNothingToDo};
ghost use Rattle.progress_laws.specs.ProgressClaims.{ProgressesIfClean};

use batch_laws::computed_lists_are_batches;
use chain_state::{a_state_stands_for_its_chain, chains_are_read, proposals_have_first_edges};
use count_set::valid_settings_have_large_meetings;
use fair_laws::computed_lists_are_kept;
use lawful_runs::plans_have_proper_arrival_lists;
use majority_graph::solid_transactions_have_edges;
use run_verdict::{blocks_are_distinguished, collisions_are_found};
use seq_base::thresholds_are_low;
use wire_view::spellings_are_read;

/// The run of a clean plan is done after one tick and at most 10n turns, and no seal in it is forged, unless two blocks
/// in it have the same digest. The seals that the sealers give have to fit.
pub fn clean_runs_are_done()
    ensures { (fits : Check) (gives : ℕ → Gives) (plan : Plan) → KeepsRules plan
        → HasArrivalLists plan → ProgressesIfClean fits gives plan }
{
    spellings_are_read();
    collisions_are_found();
    blocks_are_distinguished();
    valid_settings_have_large_meetings();
    thresholds_are_low();
    computed_lists_are_kept();
    solid_transactions_have_edges();
    computed_lists_are_batches();
    proposals_have_first_edges();
    a_state_stands_for_its_chain();
    chains_are_read();
}

/// The same for a plan that was read. The run of a plan without arrivals is done before its first event.
pub fn runs_of_clean_plans_are_done()
    ensures clean { (fits : Check) (gives : ℕ → Gives) (bytes : List ℕ) (plan : Plan) → plan_of bytes ≡ Ok plan → KeepsRules plan
        → ProgressesIfClean fits gives plan }
    ensures nothing { (fits : Check) (plan : Plan) (sealers : List Signer) → AreMadeFor plan sealers → BringsNothing plan
        → HasNothingToDo fits (play_of fits plan sealers) }
{
    plans_have_proper_arrival_lists();
    clean_runs_are_done();
    collisions_are_found();
}
