//! The definitions applied to lists that can be counted by hand: they compute what a reader counts.
ghost use Rattle.std.specs.Prelude.{◌≡◌, [], ◌∷◌};
ghost use Rattle.seq_base.specs.Setting.{threshold_of};
ghost use Rattle.majority_graph.specs.declared.edge.Edge.TheVariants.{To, From, Missing};
ghost use Rattle.majority_graph.specs.Edges.{edge_between};
ghost use Rattle.majority_graph.specs.Examples.{first, second, third, five, tied, nine, lacking};
ghost use Rattle.majority_graph.specs.Graph.{graph_of, HasEdge};
ghost use Rattle.majority_graph.specs.Walks.{Walks, WalksBoth};
ghost use Rattle.majority_graph.specs.Weights.{weight};

/// Equal weights of two each reach the threshold of two: the edge goes to the greater transaction.
pub fn a_tie_goes_to_the_greater()
    ensures forward { weight (tied first second third) first third ≡ 2 }
    ensures backward { weight (tied first second third) third first ≡ 2 }
    ensures threshold { threshold_of five ≡ 2 }
    ensures tie { edge_between five (tied first second third) first third ≡ To }
    ensures chain { edge_between five (tied first second third) first second ≡ To }
    ensures chain_on { edge_between five (tied first second third) second third ≡ To }
{}

/// The same lists with the transactions renamed: the tie leads back to the start, so that walks lead both ways.
pub fn a_tie_may_close_a_cycle()
    ensures chain { edge_between five (tied second third first) second third ≡ To }
    ensures chain_on { edge_between five (tied second third first) third first ≡ To }
    ensures tie { edge_between five (tied second third first) second first ≡ From }
    ensures cycle { WalksBoth (HasEdge (graph_of five (tied second third first) (first ∷ second ∷ third ∷ []))) 0 2 }
{}

/// Weights of two each are below the threshold of four: the pair is missing. A list that holds the third and not the
/// first counts for the third.
pub fn a_pair_below_the_threshold_is_missing()
    ensures forward { weight (lacking first second third) first second ≡ 2 }
    ensures backward { weight (lacking first second third) second first ≡ 2 }
    ensures threshold { threshold_of nine ≡ 4 }
    ensures missing { edge_between nine (lacking first second third) first second ≡ Missing }
    ensures held { weight (lacking first second third) first third ≡ 4 }
    ensures lacked { weight (lacking first second third) third first ≡ 4 }
    ensures given { edge_between nine (lacking first second third) first third ≡ To }
    ensures walk { Walks (HasEdge (graph_of nine (lacking first second third) (first ∷ second ∷ third ∷ []))) 1 2 }
{}
