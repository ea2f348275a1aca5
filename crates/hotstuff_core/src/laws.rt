//! Laws on histories that satisfy `IsLawfulHistory`; `running_locks_are_kept` needs no such premise. Each law is the
//! contract of a function whose body only calls the laws that its proof uses. All but `commits_by_digest_agree` are
//! generic in the type of blocks.
ghost use Rattle.std.specs.Prelude.{◌≡◌, ◌≤◌, ◌⊎◌, List};
ghost use Rattle.seq_base.specs.Setting.{Parameters, IsValid};
ghost use Rattle.seq_base.specs.declared.digest.Digest.{Digest};
ghost use Rattle.hotstuff_core.specs.Facts.{IsLawfulHistory};
ghost use Rattle.std.specs.List.{AllPairs};
ghost use Rattle.hotstuff_core.specs.History.{History, IsAncestor, IsDescendant, IsCertified, IsThreeChain, IsCommitted};
ghost use Rattle.hotstuff_core.specs.Runs.{Step, votes_from};

use count_set::quorums_share_an_honest_replica;
use seq_base::Digest;

/// No view has two certified blocks.
pub fn one_certified_block_a_view<Block>()
    ensures { (s : Parameters) (h : History Block) (b c : Block) → IsValid s → IsLawfulHistory s h → IsCertified s h b
        → IsCertified s h c → h.view b ≡ h.view c → b ≡ c }
{
    quorums_share_an_honest_replica();
}

/// Let g be the oldest block of a three-chain whose newest block b is certified. Every certified block whose view is at
/// least that of b extends g.
pub fn certified_blocks_extend_commits<Block>()
    ensures { (s : Parameters) (h : History Block) (g p b c : Block) → IsValid s → IsLawfulHistory s h → IsThreeChain h g p b
        → IsCertified s h b → IsCertified s h c → h.view b ≤ h.view c → IsDescendant h c g }
{
    quorums_share_an_honest_replica();
}

/// If two blocks are committed, each as the oldest of a three-chain whose newest block is certified, one extends the other.
pub fn commits_agree<Block>()
    ensures { (s : Parameters) (h : History Block) (g k : Block) → IsValid s → IsLawfulHistory s h → IsCommitted s h g
        → IsCommitted s h k → IsDescendant h g k ⊎ IsDescendant h k g }
{
    quorums_share_an_honest_replica();
}

/// The same for blocks that are named by their digests.
pub fn commits_by_digest_agree()
    ensures { (s : Parameters) (h : History Digest) (g k : Digest) → IsValid s → IsLawfulHistory s h → IsCommitted s h g
        → IsCommitted s h k → IsDescendant h g k ⊎ IsDescendant h k g }
{
    commits_agree::<Digest>();
}

/// Every certified block, and every head of a certified three-chain, extends the first block.
pub fn certified_blocks_extend_the_first<Block>()
    ensures certified { (s : Parameters) (h : History Block) (b : Block) → IsValid s → IsLawfulHistory s h → IsCertified s h b
        → IsDescendant h b h.first }
    ensures committed { (s : Parameters) (h : History Block) (g : Block) → IsValid s → IsLawfulHistory s h → IsCommitted s h g → IsDescendant h g h.first }
{
    quorums_share_an_honest_replica();
}

/// The votes of a replica that updates its lock by `lock_after` satisfy the fact `lock_kept`, whatever certificates it
/// sees.
pub fn running_locks_are_kept<Block>()
    ensures { (h : History Block) (lock : Block) (steps : List (Step Block))
        → AllPairs (λ earlier later. (g : Block) → IsAncestor h 2 earlier.block g → h.view g ≤ h.view later.lock)
        (votes_from h lock steps) }
{}
