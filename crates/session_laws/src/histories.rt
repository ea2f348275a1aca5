//! What holds over sessions.
ghost use Rattle.std.specs.Prelude.{ℕ};
ghost use Rattle.node_core.specs.Rows.{Check};
ghost use Rattle.session_laws.specs.Claims.{HistoriesAgree, HistoriesAreFair, HistoriesContinue, HistoriesHoldOnce, NothingEarlierIsLeft};
ghost use Rattle.session_laws.specs.Service.{IsService};
ghost use Rattle.session_laws.specs.Sessions.{Sessions, Starts};

use chain_laws::{
    blocks_stay_blocks_as_lists_grow, final_lists_are_fair, proposed_transactions_arrived,
};
use headline_laws::{committed_chains_are_blocks, final_transactions_arrived, the_headline_holds};

/// Over all sessions, honest histories are prefixes of one another, also where some replicas have ended fewer sessions. A later
/// session only extends what was handed out.
pub fn histories_agree()
    ensures agree { (fits : ℕ → Check) (sessions : Sessions) (starts : Starts) (many : ℕ)
        → IsService fits sessions starts many → HistoriesAgree sessions starts many }
    ensures later { (fits : ℕ → Check) (sessions : Sessions) (starts : Starts) (many : ℕ)
        → IsService fits sessions starts many → HistoriesContinue sessions starts many }
{
    the_headline_holds();
}

/// No transaction is in a history twice.
pub fn histories_hold_once()
    ensures { (fits : ℕ → Check) (sessions : Sessions) (starts : Starts) (many : ℕ)
        → IsService fits sessions starts many → HistoriesHoldOnce sessions starts many }
{
    the_headline_holds();
    final_transactions_arrived();
}

/// Where at least γn replicas received a before b, a is in the history no later than b, if b was solid when it was
/// proposed or shared its proposal with a.
pub fn histories_are_fair()
    ensures { (fits : ℕ → Check) (sessions : Sessions) (starts : Starts) (many : ℕ)
        → IsService fits sessions starts many → HistoriesAreFair sessions starts many }
{
    the_headline_holds();
    committed_chains_are_blocks();
    proposed_transactions_arrived();
    blocks_stay_blocks_as_lists_grow();
    final_lists_are_fair();
}

/// What at least γn replicas received before a session's marker is in the history with which the session ends.
pub fn nothing_earlier_is_left()
    ensures { (fits : ℕ → Check) (sessions : Sessions) (starts : Starts) (many : ℕ)
        → IsService fits sessions starts many → NothingEarlierIsLeft sessions starts many }
{
    histories_are_fair();
}
