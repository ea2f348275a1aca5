//! What a proposal keeps, by components of the graph over all that are not blank.
ghost use Rattle.std.specs.Prelude.{ℕ, ◌≡◌, ◌<◌, ◌≤◌, ◌↔◌, List, Bool, Some, true, length, slice_get};
ghost use Rattle.seq_base.specs.Setting.{Parameters};
ghost use Rattle.seq_base.specs.declared.tx.Tx.{Tx};
ghost use Rattle.majority_graph.specs.Graph.{IsGraph, graph_of, kept_of, wanted_of};
ghost use Rattle.majority_graph.specs.Walks.{Walks};
ghost use Rattle.batch_laws.specs.Pairs.{WherePlaced};
ghost use Rattle.fair_laws.specs.FairClaims.{HasWalk, IsKeptUpToSolid, KeptAreWanted, WhereFewCandidates, WhereLast, WhereNumbered};
ghost use Rattle.fair_laws.specs.Kept.{IsKept, LeadsOn, AreCandidates, AreKept, candidates_of, kept_by, proposal_of};
ghost use Rattle.seq_base.specs.Lists.{AreFresh, holds, listed};

use seq_base::thresholds_are_low;

/// A walk between vertices of the graph over all that are not blank is a walk between their transactions.
pub fn walks_go_by_places()
    ensures { (s : Parameters) (lists : List (List Tx)) (txs : List Tx) (u v : ℕ) (a b : Tx)
        → WhereFewCandidates s lists txs (WherePlaced txs u v a b (HasWalk s lists txs u v ↔ Walks (LeadsOn s lists) a b)) }
{}

/// For any numbers that never decrease along edges and are equal exactly within components: the transactions kept are
/// those up to the last number of a solid one. The reason is that a solid one has an edge with every other one, and
/// that edge can't lead back.
pub fn kept_are_up_to_the_last_solid()
    ensures number { (s : Parameters) (lists : List (List Tx)) (txs : List Tx) (number : ℕ → ℕ) (u : ℕ) (a : Tx)
        → WhereNumbered s lists txs number (IsKeptUpToSolid s lists txs number u a) }

    // The same with one more than that last number, or 0 where no transaction is solid.
    ensures below { (s : Parameters) (lists : List (List Tx)) (txs : List Tx) (number : ℕ → ℕ) (last u : ℕ) (a : Tx)
        → WhereLast s lists txs number last (slice_get txs u ≡ Some a → (number u < last) ↔ IsKept s lists a) }
{
    thresholds_are_low();
}

/// Where exactly the candidates that are kept are wanted, the wanted ones are all that is kept, and their graph has
/// the edges that the lists give.
pub fn wanted_are_kept()
    ensures kept { (s : Parameters) (lists : List (List Tx)) (txs : List Tx) (wanted : List Bool)
        → WhereFewCandidates s lists txs (KeptAreWanted s lists txs wanted → AreKept s lists (wanted_of wanted txs)) }
    ensures graph { (s : Parameters) (lists : List (List Tx)) (txs : List Tx) (wanted : List Bool)
        → kept_of wanted (graph_of s lists txs) ≡ graph_of s lists (wanted_of wanted txs) }

    // There is only one list of all that is kept.
    ensures one { (s : Parameters) (lists : List (List Tx)) (one other : List Tx) → AreKept s lists one → AreKept s lists other → one ≡ other }
{}

/// The computed lists are those of the definitions. What is kept of fresh lists is strictly ascending, at most 2,048
/// and listed, so that the proposal is a graph.
pub fn computed_lists_are_kept()
    ensures candidates { (s : Parameters) (lists : List (List Tx)) → AreCandidates s lists (candidates_of s lists) }
    ensures kept { (s : Parameters) (lists : List (List Tx)) → AreFresh lists → AreKept s lists (kept_by s lists) }
    ensures few { (s : Parameters) (lists : List (List Tx)) → AreFresh lists → length (kept_by s lists) ≤ 2048 }
    ensures graph { (s : Parameters) (lists : List (List Tx)) → AreFresh lists → IsGraph (proposal_of s lists) }
    ensures listed { (s : Parameters) (lists : List (List Tx)) (t : Tx) → AreFresh lists → holds t (kept_by s lists) ≡ true → 1 ≤ listed lists t }
{}
