//! Fairness of a proposal for transactions that enough replicas received first.
ghost use Rattle.std.specs.Prelude.{ℕ, ◌≡◌, ◌≢◌, List, Bool, false};
ghost use Rattle.seq_base.specs.Setting.{Parameters};
ghost use Rattle.seq_base.specs.declared.tx.Tx.{Tx};
ghost use Rattle.majority_graph.specs.declared.edge.Edge.TheVariants.{To};
ghost use Rattle.fair_laws.specs.FairClaims.{IsKeptFirst};
ghost use Rattle.fair_laws.specs.Kept.{GiveEdge};
ghost use Rattle.chain_laws.specs.Received.{Arrivals};
ghost use Rattle.chain_laws.specs.Drawn.{Placed, fresh_lists};
ghost use Rattle.chain_laws.specs.ChainClaims.{WhereFirstInBlock, WhereFirstInLifetime, LifetimeLeadsForward, LifetimesAreFair, lifetime_edge};

use crate::counting::few_lists_turn_round;
use fair_laws::{fair_one, few_lists_give_no_edge_back, first_edges_go_one_way};

/// Where enough replicas received a before b, a is not used yet, and a block keeps b, which is solid or shares the
/// proposal with a: the block keeps a too. Its fresh lists give no edge from b to a, whatever they keep.
pub fn received_first_is_kept()
    ensures kept { (s : Parameters) (faulty : ℕ → Bool) (arrivals : Arrivals) (block : Placed) (a b : Tx)
        → WhereFirstInBlock s faulty arrivals block a b (block.used a ≡ false → IsKeptFirst s (fresh_lists block) a b) }
    ensures no_edge_back { (s : Parameters) (faulty : ℕ → Bool) (arrivals : Arrivals) (block : Placed) (a b : Tx)
        → WhereFirstInBlock s faulty arrivals block a b (block.used a ≡ false → GiveEdge s (fresh_lists block) b a → ⊥) }
{
    few_lists_turn_round();
    fair_one();
    few_lists_give_no_edge_back();
}

/// Over the lifetime of a proposal in which a waits for each later block while the pair is missing: no block gives
/// the pair its edge from b to a.
pub fn received_first_stays_first()
    ensures never { (s : Parameters) (faulty : ℕ → Bool) (arrivals : Arrivals) (first : Placed) (later : List Placed) (a b : Tx)
        → WhereFirstInLifetime s faulty arrivals first later a b (lifetime_edge s first later b a ≢ To) }
    ensures forward { (s : Parameters) (faulty : ℕ → Bool) (arrivals : Arrivals) (first : Placed) (later : List Placed) (a b : Tx)
        → WhereFirstInLifetime s faulty arrivals first later a b (LifetimeLeadsForward s first later a b) }
{
    few_lists_turn_round();
    few_lists_give_no_edge_back();
    first_edges_go_one_way();
}

/// In terms of lists of batches of a complete proposal, whose edges came from fresh and late lists: where b is kept,
/// and b is solid or a is kept too, both are in batches, and a's is b's or an earlier one.
pub fn received_first_is_fair()
    ensures { (s : Parameters) (faulty : ℕ → Bool) (arrivals : Arrivals) (first : Placed) (later : List Placed)
        → LifetimesAreFair s faulty arrivals first later }
{
    received_first_is_kept();
    received_first_stays_first();
}
