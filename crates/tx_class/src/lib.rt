//! The three classes of listed transactions (Themis, CCS 2023): solid, shaded and blank, by how many of the fresh
//! lists hold them.
//!
//! What a crate above may rely on: the listed transactions are exactly those that some list holds, in strictly
//! ascending order. Each transaction, listed or not, has the count and the class of the definitions in `specs/`. The
//! crate depends on `seq_base`, and must not know weights or edges.
#![tactic(auto)]

mod classes;
mod laws;
mod sorted;

pub use classes::{Class, Classes, classify};
pub use laws::{
    classes_are_reported_by_counts, listed_are_those_that_a_list_holds, tallies_show_counts,
};
