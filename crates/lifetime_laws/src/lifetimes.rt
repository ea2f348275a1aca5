//! The lifetimes of one replica, with the seals of one sealer and one check. The log that they pass on has one header, so
//! its setting, its views and its replica are the same in all lifetimes.
ghost use Rattle.std.specs.Prelude.{◌≡◌, ℕ, ◌*◌, ◌<◌, ◌≤◌, ◌^◌, ◌++◌, List};
ghost use Rattle.std.specs.List.{AllByRecursion};
ghost use Rattle.seq_base.specs.Setting.{Parameters};
ghost use Rattle.node_core.specs.Rows.{Check};
ghost use Rattle.node_core.specs.Runs.{journal_of};
ghost use Rattle.node_core.specs.State.{State};
ghost use Rattle.node_core.specs.Reported.{Gives};
ghost use Rattle.journal_laws.specs.Sealed.{CountsItsSeals, RestsOnItsSeals};
ghost use Rattle.durable_node.specs.Incarnations.{FollowOn, IsPrefixOf, IsLived, Lifetime, logged};
ghost use Rattle.lifetime_laws.specs.Leaves.{SealsAgree, sealed_over};
ghost use Rattle.lifetime_laws.specs.Passed.{AllFit, IsPassedOn, Led, lifetimes_in, opening_for};

use durable_node::logs_say_whose_they_are;
use journal_laws::numbers_are_places;

/// No leaf seals two statements over all lifetimes of a replica.
pub fn no_leaf_seals_twice()
    // The answers of a lifetime are those of the turns on all its logged events, after the events that it found.
    ensures answers { (fits : Check) (gives : Gives) (opening : State) (lifetime : Lifetime) → IsLived fits gives opening lifetime
        → journal_of fits gives opening (logged lifetime) ≡ journal_of fits gives opening lifetime.found ++ lifetime.turns }
    // Each later lifetime has logged what an earlier one had, and has its statements under the same leaves.
    ensures goes_on { (lifetime : Lifetime) (lifetimes : List Lifetime) → FollowOn lifetime lifetimes
        → AllByRecursion (λ later. IsPrefixOf (logged lifetime) (logged later)) lifetimes }
    ensures leaves { (fits : Check) (gives : Gives) (opening : State) (lifetime : Lifetime) (lifetimes : List Lifetime) → FollowOn lifetime lifetimes
        → AllByRecursion (λ later. SealsAgree (sealed_over fits gives opening lifetime) (sealed_over fits gives opening later)) lifetimes }
    // A statement's leaf is its place: the number of statements sealed before it.
    ensures places { (fits : Check) (gives : Gives) (s : Parameters) (views me capacity : ℕ) (lifetime : Lifetime) → views < 2 ^ 32 → 5 * views ≤ capacity
        → CountsItsSeals fits gives s views me capacity (logged lifetime) }
    // Each seal in a lifetime is that of its leaf, for the statement of that leaf: no other seal of the sealer is in it.
    ensures seals { (fits : Check) (gives : Gives) (s : Parameters) (views me capacity : ℕ) (lifetime : Lifetime) → views < 2 ^ 32 → 5 * views ≤ capacity
        → RestsOnItsSeals fits gives s views me capacity (logged lifetime) }
    // Whatever setting, views, replica, height and keys each node was started with, they are those of the first.
    ensures one_setting { (led : Led) (more : List Led) → AllFit led more → IsPassedOn led more → AllByRecursion (λ later. later.start ≡ led.start) more }
    // So no leaf has two statements over a log that is passed on.
    ensures passed_on { (fits : Check) (gives : Gives) (capacity : ℕ) (led : Led) (more : List Led) → AllFit led more → IsPassedOn led more
        → FollowOn led.lifetime (lifetimes_in more)
        → AllByRecursion (λ later. SealsAgree (sealed_over fits gives (opening_for capacity led.start) led.lifetime)
        (sealed_over fits gives (opening_for capacity later.start) later.lifetime)) more }
{
    logs_say_whose_they_are();
    numbers_are_places();
}
