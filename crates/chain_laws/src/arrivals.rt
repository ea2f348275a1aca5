//! What blocks over arrival lists show of these lists.
ghost use Rattle.std.specs.Prelude.{ℕ, ◌≤◌, Bool};
ghost use Rattle.seq_base.specs.declared.tx.Tx.{Tx};
ghost use Rattle.seq_base.specs.Setting.{Parameters};
ghost use Rattle.count_set.specs.Sets.{size_of};
ghost use Rattle.chain_laws.specs.Blocks.{Chain};
ghost use Rattle.chain_laws.specs.Keeping.{AreBlocks};
ghost use Rattle.chain_laws.specs.Proposed.{IsProposedAt};
ghost use Rattle.chain_laws.specs.Received.{Arrivals, ArrivedAtHonest, followed};

use count_set::distinct_replicas_are_counted;

/// What a block proposes arrived at an honest replica, since more of its lists hold it than replicas may be faulty.
pub fn proposed_transactions_arrived()
    ensures { (s : Parameters) (faulty : ℕ → Bool) (arrivals : Arrivals) (chain : Chain) (number : ℕ) (t : Tx)
        → size_of s.n faulty ≤ s.f → AreBlocks s faulty arrivals chain → IsProposedAt s chain number t
        → ArrivedAtHonest s faulty arrivals t }
{
    distinct_replicas_are_counted();
}

/// Arrival lists may grow: blocks over shorter lists are blocks over longer ones.
pub fn blocks_stay_blocks_as_lists_grow()
    ensures { (s : Parameters) (faulty : ℕ → Bool) (arrivals more : Arrivals) (chain : Chain)
        → AreBlocks s faulty arrivals chain → AreBlocks s faulty (followed arrivals more) chain }
{}
