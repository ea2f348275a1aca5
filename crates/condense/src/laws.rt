//! Components agree with the reachability of `walks`.
ghost use Rattle.std.specs.Prelude.{ℕ, ◌↔◌, List, Bool};
ghost use Rattle.majority_graph.specs.Graph.{Graph};
ghost use Rattle.batch_laws.specs.Pairs.{WhereVertices};
ghost use Rattle.batch_laws.specs.Reached.{ReportWalks};
ghost use Rattle.walks.specs.Reach.{reaches_in};
ghost use Rattle.condense.specs.Groups.{Groups, AreComponents, AreInOneGroup, ReachEachOther};

/// Two vertices have the same number exactly where the reachability table says that each reaches the other.
pub fn equal_numbers_are_reached_both_ways()
    ensures { (g : Graph) (groups : Groups) (reach : List (List Bool)) (u v : ℕ) → AreComponents g groups → ReportWalks g (reaches_in reach)
        → WhereVertices g u v (AreInOneGroup groups u v ↔ ReachEachOther reach u v) }
{}
