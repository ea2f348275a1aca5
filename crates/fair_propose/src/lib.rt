//! The proposal of a set of fresh lists: which transactions it keeps, and the edges between them (FairPropose of
//! Themis, CCS 2023).
//!
//! What a crate above may rely on: a proposal is `proposal_of` its setting and lists. So its vertices are exactly the
//! transactions that are not blank and from which a walk through such transactions leads to a solid one.
//!
//! The search follows edges backwards from the solid transactions, and weighs only the pairs that it meets. The
//! transactions that it reaches get a graph.
//!
//! The crate depends on `tx_class`, `majority_graph`, the marks of `walks` and the definitions of `fair_laws`. It must
//! not know blocks, chains or texts. Its tests are in `tests_order`.
#![tactic(auto)]

mod keeping;
mod search;

pub use keeping::{propose, propose_classified};
