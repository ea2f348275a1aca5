//! Walks and batches, computed.
ghost use Rattle.std.specs.Prelude.{ℕ, Bool, length};
ghost use Rattle.majority_graph.specs.Graph.{Graph, IsGraph, IsComplete};
ghost use Rattle.batch_laws.specs.Batches.{IsLine, AreBatches};
ghost use Rattle.batch_laws.specs.Reached.{ReportWalks, reaches, number_by_reach, heads_in, batches_of};

/// The computed answers say between which two vertices a walk leads.
pub fn reaches_shows_walks()
    ensures { (g : Graph) → IsGraph g → ReportWalks g (reaches g) }
{}

/// A vertex numbered by how many heads come before its own has the number of its component, whether the graph is
/// complete or not, since a component that leads to another reaches more. There are as many numbers as heads, without
/// a gap.
pub fn reach_numbers_components()
    ensures { (g : Graph) (reaches : ℕ → ℕ → Bool) → IsGraph g → ReportWalks g reaches
        → IsLine g (number_by_reach reaches (length g.vertices)) (heads_in reaches (length g.vertices)) }
{}

/// The computed lists are the batches of a complete graph.
pub fn computed_lists_are_batches()
    ensures { (g : Graph) → IsGraph g → IsComplete g → AreBatches g (batches_of g) }
{}
