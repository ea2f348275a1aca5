//! Checks the record of a run, from any program: whether each honest journal obeys the protocol, rule by rule. It runs
//! no node.
//!
//! A crate above may rely on this. [`first_unlawful`] returns the first place where an honest replica's part of a
//! record breaks a rule, and None exactly where all parts obey; [`the_first_place_is_found`] states what this means.
//! [`finding_of`] returns what an audit finds: this place, or, where all parts obey, what the verdict shows.
//! Each journal is read in one pass. Its state holds the stored blocks with chain states, the view of the last vote,
//! the lock and the commit, the voters of each block, and the kinds and views of the sealed statements. Each seal is
//! checked once and each digest computed once. The crate stands on `journal_rules`, which has the rules and their
//! tests, on the store of blocks, on the voting rule, and on the verdict of `run_verdict`. It must not know how a record
//! came about or how it is written. Its tests are in `tests_audit`.
#![tactic(auto)]

mod arrivals;
mod audit;
mod ballots;
mod bringing;
mod carried;
mod entries;
mod finding;
mod laws;
mod marks;
mod orders;
mod statements;
mod unlawful;
mod valid;
mod voters;

pub use finding::{Finding, finding_of};
pub use laws::the_first_place_is_found;
pub use unlawful::{Unlawful, first_unlawful};
