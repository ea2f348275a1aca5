//! Laws on what a proposal keeps and in which order: fairness, for all lists.
//!
//! What a crate above may rely on:
//!
//! - Where few lists hold b without an earlier a, a is kept with b, no edge leads from b to a, and a is in no later
//!   batch (`fairness`). This also holds where late lists give the edge (`later`).
//! - A proposal keeps exactly the transactions up to the last component with a solid one, and `kept_by` computes them
//!   (`proposing`).
//!
//! Each law is the contract of a function without effect. The definitions are in `specs/`. The crate depends on
//! `majority_graph`, `tx_class` and `batch_laws`, and must not know blocks, chains or texts.
#![tactic(auto)]

mod examples;
mod fairness;
mod later;
mod proposing;

pub use examples::{one_list_is_too_few, two_lists_are_enough};
pub use fairness::{fair_one, fair_one_in_batches, weights_count_firsts};
pub use later::{
    edges_are_given_block_by_block, few_lists_give_no_edge_back, first_edges_go_one_way,
    late_lists_are_fair_in_batches, received_leaves_few,
};
pub use proposing::{
    computed_lists_are_kept, kept_are_up_to_the_last_solid, walks_go_by_places, wanted_are_kept,
};
