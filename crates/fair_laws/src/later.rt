//! Edges that lists of later blocks give.
ghost use Rattle.std.specs.Prelude.{ℕ, ◌≡◌, ◌≢◌, ◌+◌, ◌-◌, ◌*◌, ◌<◌, ◌≤◌, List, [], ◌∷◌, ◌++◌};
ghost use Rattle.seq_base.specs.Setting.{Parameters, IsValid, threshold_of};
ghost use Rattle.seq_base.specs.declared.tx.Tx.{Tx};
ghost use Rattle.majority_graph.specs.declared.edge.Edge.TheVariants.{To};
ghost use Rattle.majority_graph.specs.Edges.{opposite_of};
ghost use Rattle.majority_graph.specs.Graph.{Graph, HasEdge, graph_of};
ghost use Rattle.majority_graph.specs.Walks.{Walks};
ghost use Rattle.batch_laws.specs.Pairs.{AreInOrder, WherePlaced};
ghost use Rattle.fair_laws.specs.FairClaims.{FewTurnRound, FewInEach, LeadsForwardIfAny, WhereBatches, WhereComplete, WhereLateGive};
ghost use Rattle.fair_laws.specs.Kept.{GiveEdge};
ghost use Rattle.majority_graph.specs.Later.{first_edge, HasFirstEdges};

/// Where fewer lists than the threshold hold b without an earlier a, these lists, fresh or late, never give the edge
/// from b to a. Where this holds for each block's lists, the edge of the pair, if there is one, leads from a to b.
pub fn few_lists_give_no_edge_back()
    ensures none { (s : Parameters) (lists : List (List Tx)) (a b : Tx) → FewTurnRound s lists a b → GiveEdge s lists b a → ⊥ }
    ensures never { (s : Parameters) (blocks : List (List (List Tx))) (a b : Tx)
        → FewInEach s blocks a b → first_edge s blocks b a ≢ To }
    ensures forward { (s : Parameters) (blocks : List (List (List Tx))) (a b : Tx)
        → FewInEach s blocks a b → LeadsForwardIfAny (first_edge s blocks a b) }

    // So in a complete proposal a is in b's batch or an earlier one.
    ensures no_later_batch { (s : Parameters) (blocks : List (List (List Tx))) (g : Graph) (u v : ℕ) (a b : Tx)
        → FewInEach s blocks a b → WhereComplete s blocks g (WherePlaced g.vertices u v a b (Walks (HasEdge g) u v)) }
{}

/// In terms of lists of batches of a complete proposal, whose edges came from fresh and late lists: a is in b's batch
/// or an earlier one.
pub fn late_lists_are_fair_in_batches()
    ensures { (s : Parameters) (blocks : List (List (List Tx))) (g : Graph) (batches : List (List Tx)) (i j : ℕ) (a b : Tx)
        → FewInEach s blocks a b → WhereBatches s blocks g batches (AreInOrder batches i j a b) }
{}

/// The edge from the first block that gives one never goes both ways.
pub fn first_edges_go_one_way()
    ensures { (s : Parameters) (blocks : List (List (List Tx))) (u v : Tx) → first_edge s blocks u v ≡ opposite_of (first_edge s blocks v u) }
{}

/// Fresh lists give the first edges of a proposal. Where late lists then give edges to missing pairs only, each pair
/// has the edge of the first block that gives one.
pub fn edges_are_given_block_by_block()
    ensures fresh { (s : Parameters) (fresh : List (List Tx)) (kept : List Tx) → HasFirstEdges s (fresh ∷ []) (graph_of s fresh kept) }
    ensures late { (s : Parameters) (blocks : List (List (List Tx))) (late : List (List Tx)) (old new : Graph)
        → HasFirstEdges s blocks old → WhereLateGive s late old new (HasFirstEdges s (blocks ++ late ∷ []) new) }
{}

/// Where h honest replicas and k faulty ones, with k at most f, are at least γn, fewer replicas than the threshold
/// are not among the h.
pub fn received_leaves_few()
    ensures { (s : Parameters) (h k : ℕ) → IsValid s → k ≤ s.f → h + k ≤ s.n → s.p * s.n ≤ s.q * (h + k) → s.n - h < threshold_of s }
{}
