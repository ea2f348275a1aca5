//! Stored blocks with the chain states of some of them.
//!
//! A crate above may rely on this. The value of [`StoredBlocks`] is a setting and the blocks that were stored. Its
//! answer about the chain of any of these blocks is that of the chain state. Which chain states are cached changes no
//! answer. The crate stands on the chain of blocks and on their store, and must not know votes, seals or views. Its
//! tests are in `tests_chain`.
#![tactic(auto)]

mod blocks;

pub use blocks::StoredBlocks;
