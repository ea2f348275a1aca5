//! What holds for proposals and final lists along a chain. Each law is the contract of a function with an empty body,
//! over every setting and every list of blocks' lists.
ghost use Rattle.std.specs.Prelude.{◌≡◌, ◌≢◌, ◌≤◌, ℕ, List, ◌++◌, ◌∷◌, [], ◌||◌, All, Decides, length, map, take, true, false};
ghost use Rattle.seq_base.specs.declared.tx.Tx.{Tx};
ghost use Rattle.seq_base.specs.declared.block.Block.{Block};
ghost use Rattle.seq_base.specs.Limits.{IsWithin};
ghost use Rattle.seq_base.specs.Lists.{AreDistinct, AreFresh, holds};
ghost use Rattle.seq_base.specs.Setting.{Parameters};
ghost use Rattle.majority_graph.specs.declared.edge.Edge.TheVariants.{Missing};
ghost use Rattle.majority_graph.specs.Graph.{IsGraph};
ghost use Rattle.majority_graph.specs.Later.{first_edge, HasFirstEdges};
ghost use Rattle.majority_graph.specs.Weights.{ranks_above};
ghost use Rattle.fair_laws.specs.Kept.{kept_by, proposal_of};
ghost use Rattle.fair_update.specs.Updates.{updated};
ghost use Rattle.chain_state.specs.Drawn.{fresh_drawn, late_drawn};
ghost use Rattle.chain_state.specs.Lists.{BlockLists, fresh_of};
ghost use Rattle.chain_state.specs.Proposals.{graph_over, proposals, used_in, waiting_in, final_of, joined, IsUsed, IsWaiting, AreFinalBatches};
ghost use Rattle.chain_state.specs.Standings.{all_applied, applied, is_used, is_waiting, finals, standing_for};
ghost use Rattle.chain_state.specs.Valid.{IsValidOver, IsValidChain, fits_in};

/// An edge that is given never turns, whatever blocks follow.
pub fn given_edges_stay()
    ensures { (s : Parameters) (blocks more : List (List (List Tx))) (u v : Tx)
        → first_edge s blocks u v ≢ Missing → first_edge s (blocks ++ more) u v ≡ first_edge s blocks u v }
{}

/// Only a block's own fresh lists determine which transactions it proposes.
pub fn blocks_propose_by_themselves()
    ensures { (s : Parameters) (chain : List BlockLists)
        → map (λ g. g.vertices) (proposals s chain) ≡ map (λ b. kept_by s b.fresh) chain }
{}

/// Each proposal of a chain of short lists is a graph, and its table has the first edge of each pair.
pub fn proposals_have_first_edges()
    ensures graphs { (s : Parameters) (chain : List BlockLists) → All (λ b. AreFresh b.fresh) chain → All IsGraph (proposals s chain) }
    ensures edges { (s : Parameters) (vertices : List Tx) (blocks : List (List (List Tx))) → HasFirstEdges s blocks (graph_over s vertices blocks) }
{}

/// One more block updates each proposal before it, and adds its own.
pub fn one_more_block_updates()
    ensures proposals { (s : Parameters) (chain : List BlockLists) (b : BlockLists)
        → proposals s (chain ++ b ∷ []) ≡ map (updated s b.late) (proposals s chain) ++ proposal_of s b.fresh ∷ [] }
    ensures used { (s : Parameters) (chain : List BlockLists) (b : BlockLists) (t : Tx)
        → used_in s (chain ++ b ∷ []) t ≡ (used_in s chain t || holds t (kept_by s b.fresh)) }
{}

/// The final list of a chain is a prefix of that of each chain that extends it.
pub fn final_lists_go_on()
    ensures { (s : Parameters) (chain more : List BlockLists)
        → (rest : List (List Tx)) × (final_of s (chain ++ more) ≡ final_of s chain ++ rest) }
{}

/// The final list of a chain of valid blocks holds no transaction twice.
pub fn final_lists_hold_each_once()
    ensures { (s : Parameters) (chain : List BlockLists) → IsValidChain s chain → AreDistinct (joined (final_of s chain)) }
{}

/// What a valid block proposes is in no earlier proposal of the chain.
pub fn proposals_are_new()
    ensures { (s : Parameters) (chain : List BlockLists) (b : BlockLists) (t : Tx) → IsValidOver s chain b → used_in s chain t ≡ true
        → holds t (kept_by s b.fresh) ≡ false }
{}

/// A chain of valid blocks stays one when a block is appended that is valid over it.
pub fn valid_chains_grow()
    ensures { (s : Parameters) (chain : List BlockLists) (b : BlockLists) → IsValidChain s chain → IsValidOver s chain b
        → IsValidChain s (chain ++ b ∷ []) }
{}

/// The computed answers have their intended meaning. A transaction is used exactly where it is in a proposal. On a
/// chain of short lists, it is waiting exactly where it belongs to a missing pair, and the final batches are those of
/// the proposals before the first incomplete one.
pub fn chains_are_read()
    ensures used { (s : Parameters) (chain : List BlockLists) (t : Tx) → Decides (used_in s chain t) (IsUsed s chain t) }
    ensures waiting { (s : Parameters) (chain : List BlockLists) (t : Tx) → All (λ b. AreFresh b.fresh) chain
        → Decides (waiting_in s chain t) (IsWaiting s chain t) }
    ensures finals { (s : Parameters) (chain : List BlockLists) → All (λ b. AreFresh b.fresh) chain
        → (many : ℕ) × AreFinalBatches (proposals s chain) (final_of s chain) many }
{}

/// A state stores the batches of a complete proposal and no edges of it. Over chains of short lists, each block
/// updates the state from the state alone, and the state answers as its chain does.
pub fn a_state_stands_for_its_chain()
    ensures empty { (s : Parameters) → standing_for s [] ≡ record { setting = s; stages = [] } }
    ensures step { (s : Parameters) (chain : List BlockLists) (b : BlockLists) → All (λ c. AreFresh c.fresh) chain
        → standing_for s (chain ++ b ∷ []) ≡ applied (standing_for s chain) b }
    ensures all { (s : Parameters) (chain : List BlockLists) → All (λ c. AreFresh c.fresh) chain
        → all_applied (record { setting = s; stages = [] }) chain ≡ standing_for s chain }
    ensures short { (block : Block) → IsWithin block → AreFresh (fresh_of block) }
    ensures used { (s : Parameters) (chain : List BlockLists) (t : Tx) → All (λ c. AreFresh c.fresh) chain
        → is_used (standing_for s chain) t ≡ used_in s chain t }
    ensures waiting { (s : Parameters) (chain : List BlockLists) (t : Tx) → All (λ c. AreFresh c.fresh) chain
        → is_waiting (standing_for s chain) t ≡ waiting_in s chain t }
    ensures finals { (s : Parameters) (chain : List BlockLists) → finals (standing_for s chain) ≡ final_of s chain }
{}

/// The lists that are drawn fit the chain and are within their limits. Where the known transactions are distinct,
/// they hold nothing twice.
pub fn drawn_orders_fit()
    ensures fits { (s : Parameters) (chain : List BlockLists) (known : List Tx)
        → fits_in s chain (fresh_drawn s chain known) (late_drawn s chain known) ≡ true }
    ensures fresh_few { (s : Parameters) (chain : List BlockLists) (known : List Tx) → length (fresh_drawn s chain known) ≤ 128 }
    ensures late_few { (s : Parameters) (chain : List BlockLists) (known : List Tx) → length (late_drawn s chain known) ≤ 256 }
    ensures fresh_distinct { (s : Parameters) (chain : List BlockLists) (known : List Tx) → AreDistinct known
        → AreDistinct (fresh_drawn s chain known) }
    ensures late_distinct { (s : Parameters) (chain : List BlockLists) (known : List Tx) → AreDistinct known
        → AreDistinct (late_drawn s chain known) }
{}

/// A replica that received a before b draws no list that ranks b above a, while a is unused or waits.
pub fn drawn_lists_keep_the_order()
    ensures fresh { (s : Parameters) (chain : List BlockLists) (m : ℕ) (arrivals : List Tx) (a b : Tx) → used_in s chain a ≡ false
        → ranks_above a b arrivals ≡ true → ranks_above b a (fresh_drawn s chain (take m arrivals)) ≡ false }
    ensures late { (s : Parameters) (chain : List BlockLists) (m : ℕ) (arrivals : List Tx) (a b : Tx) → waiting_in s chain a ≡ true
        → ranks_above a b arrivals ≡ true → ranks_above b a (late_drawn s chain (take m arrivals)) ≡ false }
{}
