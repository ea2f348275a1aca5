//! What holds for every line.
ghost use Rattle.std.specs.Prelude.{◌≢◌, ℕ, List, [], slice_index_or};
ghost use Rattle.std.specs.List.{AllPairs};
ghost use Rattle.std.specs.List.Sorted.{IsPermutation};
ghost use Rattle.seq_base.specs.declared.tx.Tx.{Tx};
ghost use Rattle.seq_base.specs.Setting.{Parameters};
ghost use Rattle.majority_graph.specs.declared.edge.Edge.TheVariants.{Missing};
ghost use Rattle.majority_graph.specs.Edges.{edge_between, gives_edge};
ghost use Rattle.majority_graph.specs.Graph.{Graph};
ghost use Rattle.line_up.specs.Line.{line_of};
ghost use Rattle.line_up.specs.Majorities.{LineHasMajorities, WhereBatchOf};
ghost use Rattle.line_up.specs.Paths.{has_edge, HaveEdges, IsPath};

/// A line holds each member once. Where any two members have an edge one way, each entry has an edge to the next.
pub fn lines_are_paths()
    ensures each { (g : Graph) (members : List ℕ) → IsPermutation members (line_of (has_edge g) members) }
    ensures edges { (g : Graph) (members : List ℕ) → HaveEdges g members → IsPath g (line_of (has_edge g) members) }
{}

/// The line of transactions holds each of them once. Where the lists give an edge to any two of them, each has a
/// majority over the next.
pub fn neighbours_have_majorities()
    ensures each { (s : Parameters) (lists : List (List Tx)) (batch : List Tx) → IsPermutation batch (line_of (gives_edge s lists) batch) }
    ensures majorities { (s : Parameters) (lists : List (List Tx)) (batch : List Tx) → AllPairs (λ u v. edge_between s lists u v ≢ Missing) batch
        → LineHasMajorities s lists batch }
{}

/// The same holds for the line of each batch of a complete graph with the edges of lists.
pub fn lines_of_batches_have_majorities()
    ensures { (s : Parameters) (lists : List (List Tx)) (vertices : List Tx) (batches : List (List Tx)) (i : ℕ)
        → WhereBatchOf s lists vertices batches i (LineHasMajorities s lists (slice_index_or batches i [])) }
{}
