//! The journal of all lifetimes of one replica, joined.
ghost use Rattle.std.specs.Prelude.{◌≡◌, ℕ, List, [], All};
ghost use Rattle.node_core.specs.declared.event.Event.{Event};
ghost use Rattle.node_core.specs.Rows.{Check};
ghost use Rattle.node_core.specs.Runs.{AllCome, journal_of, opening_state};
ghost use Rattle.node_core.specs.State.{State};
ghost use Rattle.node_core.specs.Reported.{Gives};
ghost use Rattle.journal_laws.specs.Standing.{MayCome};
ghost use Rattle.journal_rules.specs.Rules.{IsLawful, Scale};
ghost use Rattle.durable_node.specs.Incarnations.{FollowOn, Lifetime, logged};
ghost use Rattle.durable_node.specs.Log.{CanBeKept};
ghost use Rattle.seq_base.specs.Setting.{Parameters};
ghost use Rattle.lifetime_laws.specs.Joined.{AreLived, IsFromReplica, joined_journal, last_lifetime};
ghost use Rattle.lifetime_laws.specs.Passed.{AllFit, AreLed, IsPassedOn, Led, lifetimes_in, opening_for};

use durable_node::logs_say_whose_they_are;
use journal_laws::journals_are_lawful;
use wire_view::what_is_read_is_spelled;

/// Consecutive lifetimes, the first of which started with an empty log, have one journal: that of a node that never crashed
/// and was given the events that they logged. It is lawful.
pub fn joined_journals_are_lawful()
    // The joined journals are those of the turns on all events that the last lifetime had logged in the end.
    ensures joined { (fits : Check) (gives : Gives) (opening : State) (lifetime : Lifetime) (lifetimes : List Lifetime) → lifetime.found ≡ []
        → AreLived fits gives opening lifetime lifetimes → FollowOn lifetime lifetimes
        → joined_journal fits gives opening lifetime lifetimes ≡ journal_of fits gives opening (logged (last_lifetime lifetime lifetimes)) }
    ensures lawful { (gives : Gives) (by : Scale) (views me capacity : ℕ) (lifetime : Lifetime) (lifetimes : List Lifetime) → lifetime.found ≡ []
        → AreLived by.fits gives (opening_state by.setting views me capacity) lifetime lifetimes → FollowOn lifetime lifetimes
        → MayCome by views me (logged (last_lifetime lifetime lifetimes))
        → IsLawful by (joined_journal by.fits gives (opening_state by.setting views me capacity) lifetime lifetimes) }
    // Lifetimes over one log that is passed on start from the same opening state, whatever each was started with.
    ensures one_opening { (fits : Check) (gives : Gives) (capacity : ℕ) (led : Led) (more : List Led) → AllFit led more → IsPassedOn led more
        → AreLed fits gives capacity led more → AreLived fits gives (opening_for capacity led.start) led.lifetime (lifetimes_in more) }
    // For logged events that premise asks only this: each delivered event came from a replica of the setting.
    ensures come { (setting : Parameters) (events : List Event) → All CanBeKept events → All (IsFromReplica setting.n) events → AllCome setting events }
{
    logs_say_whose_they_are();
    journals_are_lawful();
    what_is_read_is_spelled();
}
