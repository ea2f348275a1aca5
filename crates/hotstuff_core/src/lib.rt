//! Voting, locking and committing by the rules of chained HotStuff (PODC 2019), and what follows from them.
//!
//! What a layer above may rely on: a replica's [`Safety`] changes exactly as the rules say. The laws speak of a valid
//! setting and of a history that satisfies `IsLawfulHistory`: at most f replicas are faulty, and the votes of the others
//! keep the rules and are for valid blocks. Then no view has two certified blocks, and of two committed blocks one
//! extends the other. The crate knows blocks and digests only through `block_store`, and replicas through `count_set`.
#![tactic(auto)]

mod examples;
mod keeping;
mod laws;
mod safety;

pub use examples::{
    a_gap_in_a_chain_decides_nothing, a_lawful_history_may_fork,
    facts_are_those_of_lawful_histories, no_fact_is_idle,
};
pub use keeping::{commits_are_heads_of_three_chains, votes_by_the_rules_keep_the_facts};
pub use laws::{
    certified_blocks_extend_commits, certified_blocks_extend_the_first, commits_agree,
    commits_by_digest_agree, one_certified_block_a_view, running_locks_are_kept,
};
pub use safety::{Safety, Seen};
