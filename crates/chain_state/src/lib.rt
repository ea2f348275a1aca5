//! What a chain of blocks has proposed and finalised, block by block, and the local orders drawn over it.
//!
//! What a crate above may rely on. A [`ChainState`] represents the list of blocks applied to it. It answers which
//! transactions are used and which wait, whether a local order fits, and what the final list is. [`make_order`] draws
//! a replica's order from what it knows. The crate depends on `fair_propose`, `fair_update` and `fair_finalize`, and
//! must not know leaders of views, certificates, seals or votes.
#![tactic(auto)]

mod drawing;
mod late;
mod laws;
mod lists;
mod pending;
mod sets;
mod standing;
mod state;
mod stepping;

pub use drawing::make_order;
pub use laws::{
    a_state_stands_for_its_chain, blocks_propose_by_themselves, chains_are_read,
    drawn_lists_keep_the_order, drawn_orders_fit, final_lists_go_on, final_lists_hold_each_once,
    given_edges_stay, one_more_block_updates, proposals_are_new, proposals_have_first_edges,
    valid_chains_grow,
};
pub use state::ChainState;
