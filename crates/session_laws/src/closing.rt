//! How a session may be closed whose views ran out before its marker was final.
ghost use Rattle.std.specs.Prelude.{ℕ, List};
ghost use Rattle.seq_base.specs.Setting.{Parameters, IsValid};
ghost use Rattle.hotstuff_core.specs.Facts.{IsLawfulHistory};
ghost use Rattle.hotstuff_core.specs.History.{History, IsCommitted, IsDescendant};
ghost use Rattle.session_laws.specs.Closing.{MayClose};

use count_set::quorums_share_an_honest_replica;
use hotstuff_core::{certified_blocks_extend_commits, one_certified_block_a_view};

/// A block at which a session may be closed extends every block that any honest replica has committed or ever commits.
/// So the final list of its chain can serve as the cut.
pub fn closing_blocks_extend_commits<Block>()
    ensures { (s : Parameters) (h : History Block) (reporters : List ℕ) (c committed : Block)
        → IsValid s → IsLawfulHistory s h → MayClose s h reporters c → IsCommitted s h committed → IsDescendant h c committed }
{
    quorums_share_an_honest_replica();
    certified_blocks_extend_commits::<Block>();
    one_certified_block_a_view::<Block>();
}
