//! Sessions one after another: where one is cut, what is carried over to the next, and the rules of carrying over.
//!
//! A crate above may rely on this. A session ends at its marker, a reserved transaction. What counts of its batches
//! (`count_batches`) and what is carried over to the next session (`carried_over`) are functions of lists (`cut`).
//! `carries_over` decides the rules that `specs/Rules` states, for one replica that was honest in all sessions and took
//! no history from another. [`FinalTxs`] checks one session after another, at all replicas: its transactions are the
//! history of every honest replica (`specs/Final`). The laws that follow from the rules are in `session_laws`, the tests
//! in `tests_sessions`.
//! The crate stands on `run_record`, and must not know how batches came to be final.
#![tactic(auto)]

mod check;
mod cut;
mod fault;
mod final_txs;

pub use check::carries_over;
pub use cut::{carried_over, count_batches, has_ended, marker};
pub use fault::{AddFault, ArrivalFault};
pub use final_txs::FinalTxs;
