//! From the journals of replicas to their agreement: laws over any journals, the honest ones of which obey the rules.
//!
//! A crate above may rely on this. If the honest journals of a record are lawful, no honest vote in them is forged and
//! no two blocks collide, the history of the record satisfies the facts of `hotstuff_core`. So the commits of any two
//! honest journals lie on one chain, and one of their committed chains, blocks with their local orders, is a prefix of
//! the other (`laws`). The lock and the commit of a prefix change as those of a replica that updates them step by step.
//! The laws on the blocks of such a chain are in `stored`. Messages are plain data here, as they were read, and seals
//! are left out. Each law is the contract of a function that only names what it rests on. The definitions are in
//! `specs/`. The crate stands on `count_set` and `hotstuff_core` and must not know wire bytes, nodes, transactions or
//! texts.
#![tactic(auto)]

mod example;
mod laws;
mod stored;

pub use example::a_sound_record_may_commit;
pub use laws::{
    commits_of_journals_agree, commits_of_prefixes_agree, committed_chains_agree,
    histories_of_records_are_lawful, locks_and_commits_move_as_seen,
};
pub use stored::{
    chains_stand_on_parents, commits_are_stored, honest_prefixes_are_kept,
    stored_blocks_have_one_chain,
};
