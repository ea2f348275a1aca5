//! An order inside each batch of a proposal, in which each transaction has a majority over the next.
//!
//! What a crate above may rely on: [`line`] returns exactly the line of its members, which holds each of them once
//! and in which each has an edge to the next. [`line_of_batch`] returns the same as transactions. The definitions are
//! in `specs/`, for items of any type. The crate depends on `majority_graph`, and must not know classes or texts.
#![tactic(auto)]

mod batch;
mod laws;
mod lining;

pub use batch::line_of_batch;
pub use laws::{lines_are_paths, lines_of_batches_have_majorities, neighbours_have_majorities};
pub use lining::line;
