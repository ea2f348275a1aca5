//! The final list of a chain of blocks.
ghost use Rattle.std.specs.Prelude.{◌≡◌, ◌++◌, ℕ, Bool, List, All};
ghost use Rattle.std.specs.List.Sorted.{IsStrictlySortedBy};
ghost use Rattle.seq_base.specs.declared.tx.Tx.{Tx};
ghost use Rattle.seq_base.specs.Lists.{AreDistinct};
ghost use Rattle.seq_base.specs.Setting.{Parameters};
ghost use Rattle.seq_base.specs.Tx.{tx_cmp};
ghost use Rattle.batch_laws.specs.Batches.{StandsIn};
ghost use Rattle.batch_laws.specs.Pairs.{IsInOne};
ghost use Rattle.chain_state.specs.Proposals.{joined};
ghost use Rattle.chain_laws.specs.Received.{Arrivals};
ghost use Rattle.chain_laws.specs.Blocks.{Chain, final_list};
ghost use Rattle.chain_laws.specs.FinalClaims.{IsFairAt, IsInSomeProposal, IsProposedOnce, WhereBlocks, WhereFirstOver};

use crate::blocks::{chains_of_blocks_are_chains, chains_of_blocks_are_valid};
use crate::{batch_lists_are_fair, batch_lists_hold_once};
use chain_state::{a_state_stands_for_its_chain, final_lists_go_on, final_lists_hold_each_once};

/// No transaction occurs twice in the final list: neither in two batches, nor twice in one, where they are strictly
/// ascending. Exactly one block of the chain proposes what the list holds.
pub fn final_lists_hold_once()
    ensures one_batch { (s : Parameters) (faulty : ℕ → Bool) (arrivals : Arrivals) (chain : Chain) (i j : ℕ) (t : Tx)
        → WhereBlocks s faulty arrivals chain (IsInOne (final_list s chain) i j t) }
    ensures ascending { (s : Parameters) (faulty : ℕ → Bool) (arrivals : Arrivals) (chain : Chain)
        → WhereBlocks s faulty arrivals chain (All (IsStrictlySortedBy tx_cmp) (final_list s chain)) }
    ensures distinct { (s : Parameters) (faulty : ℕ → Bool) (arrivals : Arrivals) (chain : Chain)
        → WhereBlocks s faulty arrivals chain (AreDistinct (joined (final_list s chain))) }
    ensures proposed { (s : Parameters) (faulty : ℕ → Bool) (arrivals : Arrivals) (chain : Chain) (j : ℕ) (t : Tx)
        → WhereBlocks s faulty arrivals chain
        (StandsIn (final_list s chain) j t → IsInSomeProposal s chain t) }
    ensures one_block { (s : Parameters) (faulty : ℕ → Bool) (arrivals : Arrivals) (chain : Chain) (one other : ℕ) (t : Tx)
        → WhereBlocks s faulty arrivals chain (IsProposedOnce s chain one other t) }
{
    chains_of_blocks_are_chains();
    chains_of_blocks_are_valid();
    batch_lists_hold_once();
    a_state_stands_for_its_chain();
    final_lists_hold_each_once();
}

/// Where enough replicas received a before b, and the final list holds b, and b is solid in the block that proposes
/// it or a is in that proposal too: the list holds a in the same batch as b or in an earlier one.
pub fn final_lists_are_fair()
    ensures { (s : Parameters) (faulty : ℕ → Bool) (arrivals : Arrivals) (chain : Chain) (number j : ℕ) (a b : Tx)
        → WhereFirstOver s faulty arrivals chain a b (IsFairAt s chain number j a b) }
{
    chains_of_blocks_are_chains();
    batch_lists_are_fair();
}

/// The final list of a chain is a prefix of that of each longer chain.
pub fn longer_chains_have_longer_lists()
    ensures { (s : Parameters) (chain more : Chain)
        → (rest : List (List Tx)) × (final_list s (chain ++ more) ≡ final_list s chain ++ rest) }
{
    a_state_stands_for_its_chain();
    final_lists_go_on();
}
