//! What holds for all edges. Each law is the contract of a function without effect, over every list of lists and any
//! two transactions, and over every setting unless it asks for a valid one.
ghost use Rattle.std.specs.Prelude.{◌≡◌, ◌≢◌, ◌<◌, ◌≤◌, ◌⊎◌, ℕ, List, length};
ghost use Rattle.seq_base.specs.Lists.{listed};
ghost use Rattle.seq_base.specs.Setting.{Parameters, IsValid, solid_of};
ghost use Rattle.seq_base.specs.declared.tx.Tx.{Tx};
ghost use Rattle.majority_graph.specs.declared.edge.Edge.TheVariants.{Missing};
ghost use Rattle.majority_graph.specs.Edges.{edge_between, opposite_of};
ghost use Rattle.majority_graph.specs.Graph.{Graph, IsGraph, IsComplete, HasEdge};

use seq_base::thresholds_are_low;

/// An edge never goes both ways: seen from the other transaction it is the opposite.
pub fn edges_go_one_way()
    ensures { (s : Parameters) (lists : List (List Tx)) (u v : Tx)
        → edge_between s lists u v ≡ opposite_of (edge_between s lists v u) }
{}

/// A solid transaction has an edge with every other one, listed or not: the larger half of the lists that hold the
/// solid one decides the pair.
pub fn solid_transactions_have_edges()
    ensures { (s : Parameters) (lists : List (List Tx)) (u v : Tx) → IsValid s → solid_of s ≤ listed lists u → u ≢ v
        → edge_between s lists u v ≢ Missing }
{
    thresholds_are_low();
}

/// In a complete graph any two vertices have an edge, in one direction.
pub fn complete_graphs_have_all_edges()
    ensures { (g : Graph) (u v : ℕ) → IsGraph g → IsComplete g → u < length g.vertices → v < length g.vertices → u ≢ v
        → HasEdge g u v ⊎ HasEdge g v u }
{}
