//! Reachability in a proposal by simple search: the reference for every faster implementation.
//!
//! What a crate above may rely on:
//!
//! - [`Reach::reaches`] is true exactly where a walk of length zero or more leads along edges from one vertex to the
//!   other.
//! - [`Mark`] and [`next_open`] serve other searches too. Such a search preserves the invariant of `proofs/Marking`,
//!   in either direction along the edges.
//!
//! The crate depends on `majority_graph`, and must not know components.
#![tactic(auto)]

mod mark;
mod reach;
mod search;

pub use mark::{Mark, next_open};
pub use reach::{Reach, closure};
