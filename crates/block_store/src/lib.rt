//! Blocks by their digests, each stored after its parent.
//!
//! A layer above sees the store as the list of its blocks, in the order in which they were stored. It may rely on the
//! following, which [`BlockStore::keeps_its_rules`] states for each store:
//!
//! - The parent of every stored block is the first block, or was stored before it.
//! - No two blocks have the same digest, and none has the first block's.
//! - Each block is within the limits.
//!
//! The crate depends on `wire_write`, which defines a block's bytes and digest, and on `indexmap`.
#![tactic(auto)]

mod fault;
mod laws;
mod store;

pub use fault::StoreFault;
pub use laws::{
    chains_begin_at_the_first_block, extending_is_by_parent_steps, parents_are_stored,
    stored_blocks_are_found, stored_blocks_stay, the_first_block_has_no_parent,
};
pub use store::BlockStore;
