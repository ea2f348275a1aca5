//! The majority graph of Themis (CCS 2023): the weights of pairs of transactions over the local orders, and the edge
//! that each pair gets.
//!
//! What a crate above may rely on:
//!
//! - A [`Proposal`] is its vertices, which are strictly ascending, and an edge or none for each pair of them.
//! - [`weigh`] gives each pair the edge of the weights, and [`Ranking`] gives it to the pairs that are asked for.
//! - No edge goes both ways.
//!
//! The definitions of weights, edges and walks are in `specs/`, where all crates on graphs cite them. The crate
//! depends on `seq_base`, and must not know classes, components or batches.
#![tactic(auto)]

mod columns;
mod edge;
mod examples;
mod laws;
mod lookup;
mod proposal;
mod ranking;
mod ranks;
mod weighing;

pub use edge::Edge;
pub use examples::{
    a_pair_below_the_threshold_is_missing, a_tie_goes_to_the_greater, a_tie_may_close_a_cycle,
};
pub use laws::{complete_graphs_have_all_edges, edges_go_one_way, solid_transactions_have_edges};
pub use proposal::{Proposal, wanted_items};
pub use ranking::Ranking;
pub use weighing::weigh;
