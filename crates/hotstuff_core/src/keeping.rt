//! Laws on a replica that votes, locks and commits by the rules. Each law is the contract of a function whose body only
//! calls the laws that its proof uses.
ghost use Rattle.std.specs.Prelude.{ℕ, List, Bool};
ghost use Rattle.seq_base.specs.declared.digest.Digest.{Digest};
ghost use Rattle.seq_base.specs.declared.block.Block.{Block};
ghost use Rattle.block_store.specs.Entries.{IsStore};
ghost use Rattle.hotstuff_core.specs.Deeds.{Deed, history_in, votes_by, AreByRules, KeepsFacts};
ghost use Rattle.hotstuff_core.specs.Rules.{State};
ghost use Rattle.hotstuff_core.specs.Votes.{IsHead, AllVotes, WhereCommitted};

use block_store::{
    extending_is_by_parent_steps, parents_are_stored, the_first_block_has_no_parent,
};

/// Suppose that a replica votes only where `may_vote` allows it, and calls `vote` and then `see` on the certificate in
/// the block, each over the blocks that it has stored at that step. Then its votes satisfy four facts of
/// `IsLawfulHistory` in the history of any later store: `own_view`, `ascending`, `by_rule` and `lock_kept`. Not shown
/// here are `above_lock`, and `parent_below` and `parent_certified`, which are about the validity of blocks.
pub fn votes_by_the_rules_keep_the_facts()
    ensures { (later : List Block) (s : State) (deeds : List Deed) (faulty : ℕ → Bool) (votes : AllVotes)
        → IsStore later → AreByRules later s deeds → KeepsFacts (history_in later faulty votes) (votes_by s deeds) }
{
    extending_is_by_parent_steps();
    parents_are_stored();
    the_first_block_has_no_parent();
}

/// The block that `see` commits is the head of a three-chain that ends with the block of the certificate.
pub fn commits_are_heads_of_three_chains()
    ensures { (store later : List Block) (s : State) (view : ℕ) (block head : Digest) (faulty : ℕ → Bool) (votes : AllVotes)
        → WhereCommitted store later s view block head (IsHead later faulty votes head block) }
{
    parents_are_stored();
}
