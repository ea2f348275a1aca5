//! Fairness over a chain of blocks whose honest orders are drawn from arrival lists.
//!
//! What a crate above may rely on: where enough replicas received a before b, fewer lists of each block than the
//! threshold hold b without an earlier a (`counting`). So a is proposed with b, and its batch is b's or an earlier
//! one (`proposals`). This also holds over a whole chain, whose joint list of batches holds each transaction once
//! (`chains`). Let each block of a chain have n-f orders that fit the blocks before it, and let honest orders be drawn
//! over these from arrival lists (`AreBlocks`). Then these laws apply to the blocks (`blocks`). So the final list of a
//! chain state holds each transaction once and is fair, and a longer chain extends it (`finals`). What a block proposes
//! arrived at an honest replica, and blocks stay blocks as arrival lists grow (`arrivals`). Each law is the contract of
//! a function that only names what it rests on. The definitions are in `specs/`. The crate depends on `count_set`,
//! `fair_laws` and `chain_state`, and must not know votes, messages or texts.
#![tactic(auto)]

mod arrivals;
mod blocks;
mod chains;
mod counting;
mod examples;
mod finals;
mod proposals;
mod small_chain;

pub use arrivals::{blocks_stay_blocks_as_lists_grow, proposed_transactions_arrived};
pub use blocks::{chains_of_blocks_are_chains, chains_of_blocks_are_valid};
pub use chains::{batch_lists_are_fair, batch_lists_hold_once, chains_are_fair};
pub use counting::{few_lists_turn_round, places_show_before};
pub use examples::premises_are_met;
pub use finals::{final_lists_are_fair, final_lists_hold_once, longer_chains_have_longer_lists};
pub use proposals::{received_first_is_fair, received_first_is_kept, received_first_stays_first};
pub use small_chain::a_second_block_completes_a_chain;
