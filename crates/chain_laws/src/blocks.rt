//! Chains of blocks as the chains of `chain_laws`.
ghost use Rattle.std.specs.Prelude.{ℕ, Bool, map};
ghost use Rattle.seq_base.specs.Setting.{Parameters};
ghost use Rattle.chain_state.specs.Valid.{IsValidChain};
ghost use Rattle.chain_laws.specs.Chain.{IsChain, FreshAreUnused};
ghost use Rattle.chain_laws.specs.Received.{Arrivals};
ghost use Rattle.chain_laws.specs.Blocks.{Chain, lists_in, placed};
ghost use Rattle.chain_laws.specs.FinalClaims.{HasFinals, WhereBlocks};

use batch_laws::computed_lists_are_batches;
use chain_state::{
    a_state_stands_for_its_chain, chains_are_read, proposals_have_first_edges, valid_chains_grow,
};
use fair_laws::{computed_lists_are_kept, wanted_are_kept};

/// Blocks, each seen over those before it, are a chain. There, a transaction is used where an earlier block proposed
/// it, and waiting where it belongs to a missing pair, and no fresh entry is used. The final list has the batches of
/// the complete proposals before the first that is not.
pub fn chains_of_blocks_are_chains()
    ensures chain { (s : Parameters) (faulty : ℕ → Bool) (arrivals : Arrivals) (chain : Chain)
        → WhereBlocks s faulty arrivals chain (IsChain s faulty arrivals (placed s chain)) }
    ensures unused { (s : Parameters) (faulty : ℕ → Bool) (arrivals : Arrivals) (chain : Chain)
        → WhereBlocks s faulty arrivals chain (FreshAreUnused (placed s chain)) }
    ensures finals { (s : Parameters) (faulty : ℕ → Bool) (arrivals : Arrivals) (chain : Chain)
        → WhereBlocks s faulty arrivals chain (HasFinals s chain) }
{
    a_state_stands_for_its_chain();
    chains_are_read();
    proposals_have_first_edges();
    computed_lists_are_kept();
    wanted_are_kept();
    computed_lists_are_batches();
}

/// Each block fits those before it, in the terms of chain states.
pub fn chains_of_blocks_are_valid()
    ensures { (s : Parameters) (faulty : ℕ → Bool) (arrivals : Arrivals) (chain : Chain)
        → WhereBlocks s faulty arrivals chain (IsValidChain s (map lists_in chain)) }
{
    a_state_stands_for_its_chain();
    valid_chains_grow();
}
