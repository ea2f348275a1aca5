//! Fairness of the batches of a whole chain.
ghost use Rattle.std.specs.Prelude.{ℕ, List, Bool, All};
ghost use Rattle.std.specs.List.Sorted.{IsStrictlySortedBy};
ghost use Rattle.seq_base.specs.Setting.{Parameters};
ghost use Rattle.seq_base.specs.declared.tx.Tx.{Tx};
ghost use Rattle.seq_base.specs.Tx.{tx_cmp};
ghost use Rattle.batch_laws.specs.Batches.{StandsIn};
ghost use Rattle.batch_laws.specs.Pairs.{IsInOne};
ghost use Rattle.chain_laws.specs.Received.{Arrivals};
ghost use Rattle.chain_laws.specs.Drawn.{Placed};
ghost use Rattle.chain_laws.specs.Chain.{IsFinalised, Proposes, batch_list};
ghost use Rattle.chain_laws.specs.ChainClaims.{Finals, ProposesOnce, WhereUnused, WhereFinal, ChainsAreFair, BatchListsAreFair};

use crate::proposals::{received_first_is_kept, received_first_stays_first};

/// Let enough replicas have received a before b, and let b be in a final batch of a chain, and be solid in the block
/// that proposes it or share a's proposal. Then a is in an earlier proposal, or in the same batch or an earlier one.
pub fn chains_are_fair()
    ensures { (s : Parameters) (faulty : ℕ → Bool) (arrivals : Arrivals) (blocks : List Placed) (finals : Finals)
        → ChainsAreFair s faulty arrivals blocks finals }
{
    received_first_is_kept();
    received_first_stays_first();
}

/// Where no fresh entry of a block is in a proposal before it, a chain proposes a transaction once. The joint list of
/// all batches holds it in only one batch, and there once, since the transactions of each batch are strictly
/// ascending. A block proposes each transaction that the list holds.
pub fn batch_lists_hold_once()
    ensures proposed { (s : Parameters) (faulty : ℕ → Bool) (arrivals : Arrivals) (blocks : List Placed) (one other : ℕ) (t : Tx)
        → WhereUnused s faulty arrivals blocks (ProposesOnce s blocks one other t) }
    ensures held { (s : Parameters) (faulty : ℕ → Bool) (arrivals : Arrivals) (blocks : List Placed) (finals : Finals) (i j : ℕ) (t : Tx)
        → WhereFinal s faulty arrivals blocks finals (IsInOne (batch_list finals) i j t) }
    ensures proposer { (s : Parameters) (blocks : List Placed) (finals : Finals) (j : ℕ) (t : Tx)
        → IsFinalised s blocks finals → StandsIn (batch_list finals) j t → (number : ℕ) × Proposes s blocks number t }
    ensures ascending { (s : Parameters) (blocks : List Placed) (finals : Finals) → IsFinalised s blocks finals
        → All (IsStrictlySortedBy tx_cmp) (batch_list finals) }
{}

/// In terms of the joint list of all batches: where it holds b, and b is solid in the block that proposes it or a is
/// in the same proposal, it holds a in the same batch or an earlier one.
pub fn batch_lists_are_fair()
    ensures { (s : Parameters) (faulty : ℕ → Bool) (arrivals : Arrivals) (blocks : List Placed) (finals : Finals)
        → BatchListsAreFair s faulty arrivals blocks finals }
{
    chains_are_fair();
}
