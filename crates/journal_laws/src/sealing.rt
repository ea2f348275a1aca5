//! What a node seals over a run.
ghost use Rattle.std.specs.Prelude.{ℕ, ◌*◌, ◌<◌, ◌≤◌, ◌^◌, List};
ghost use Rattle.seq_base.specs.Setting.{Parameters};
ghost use Rattle.node_core.specs.declared.event.Event.{Event};
ghost use Rattle.node_core.specs.Rows.{Check};
ghost use Rattle.node_core.specs.Reported.{Gives};
ghost use Rattle.node_core.specs.Runs.{opening_state, journal_of, state_after};
ghost use Rattle.journal_laws.specs.Sealed.{AreSealedOnce, CapacitiesAgree, CountsItsSeals, RestsOnItsSeals};
ghost use Rattle.journal_rules.specs.Sealed.{sealed_in};

/// At most one statement of each of the five kinds is sealed for a view, whatever events come: for each kind the views
/// ascend, and none is above the last view of the run.
pub fn each_kind_is_sealed_once_a_view()
    ensures { (fits : Check) (gives : Gives) (s : Parameters) (views me capacity : ℕ) (events : List Event) → views < 2 ^ 32
        → AreSealedOnce views (sealed_in (journal_of fits gives (opening_state s views me capacity) events)) }
{}

/// A sealer that can make five seals for each view is never exhausted. Whatever events come, the journal is the same as
/// with any other that can make as many, and at most five for each view are made.
pub fn sealers_are_never_spent()
    ensures same { (fits : Check) (gives : Gives) (s : Parameters) (views me capacity other : ℕ) (events : List Event) → views < 2 ^ 32
        → 5 * views ≤ capacity → 5 * views ≤ other → CapacitiesAgree fits gives s views me capacity other events }
    ensures few { (fits : Check) (gives : Gives) (s : Parameters) (views me capacity : ℕ) (events : List Event) → views < 2 ^ 32 → 5 * views ≤ capacity
        → (state_after fits gives (opening_state s views me capacity) events).made ≤ 5 * views }
{}

/// The number under which a statement is sealed is its place among all that were sealed. Each seal that the node
/// returns is the seal with that number for that statement: with a sealer that gives other seals for all other numbers
/// and statements, the journal is the same.
pub fn numbers_are_places()
    ensures counted { (fits : Check) (gives : Gives) (s : Parameters) (views me capacity : ℕ) (events : List Event) → views < 2 ^ 32 → 5 * views ≤ capacity
        → CountsItsSeals fits gives s views me capacity events }
    ensures alone { (fits : Check) (gives : Gives) (s : Parameters) (views me capacity : ℕ) (events : List Event) → views < 2 ^ 32 → 5 * views ≤ capacity
        → RestsOnItsSeals fits gives s views me capacity events }
{}
