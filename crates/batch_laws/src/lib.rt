//! Laws on the batches of a complete graph, its strong components.
//!
//! What a crate above may rely on. Batches are linearly ordered: each edge leads from an earlier batch to a later
//! one, or stays within one (`line`). Batches are computed by `batches_of`, and walks by `reaches` (`reached`). Each
//! law is the contract of a function with an empty body. The definitions are in `specs/`. The crate depends on
//! `majority_graph`, and must not know classes, proposals or texts.
#![tactic(auto)]

mod line;
mod reached;

pub use line::{
    batches_are_classes, batches_stand_in_line, lists_of_the_line_are_batches,
    numbers_give_the_line, the_batches_are_one, the_line_is_one,
};
pub use reached::{computed_lists_are_batches, reach_numbers_components, reaches_shows_walks};
