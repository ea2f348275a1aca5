//! Edges from a later block (FairUpdate of Themis, CCS 2023): the late lists of one more block are weighed for the
//! missing pairs of a proposal.
//!
//! What a crate above may rely on: [`update`] gives edges to missing pairs only, by the weights of the late lists,
//! and never turns one. [`waiting`] returns the transactions that belong to a missing pair. The crate depends on
//! `majority_graph`, and must not know blocks, chains or batches.
#![tactic(auto)]

mod ranking;
mod updating;

pub use ranking::waiting;
pub use updating::update;
