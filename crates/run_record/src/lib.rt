//! The record of a run: what it holds, which of its replicas are honest, which transactions are due, and its verdict.
//!
//! What a crate above may rely on. A [`RunRecord`] has one list of arrivals, one [`Journal`], one [`Head`] and one list
//! of batches for each replica. [`is_honest`] says which replicas are honest. [`due`] lists the transactions that every
//! honest replica received, and [`holds_all`] says whether batches hold them all. Those who run nodes and those who
//! check a run share these types. The crate depends on `node_core`, whose entries a journal holds, and must not know
//! how a run comes about.
#![tactic(auto)]

mod done;
mod honest;
mod record;
mod verdict;

pub use done::{due, holds_all};
pub use honest::{is_honest, of_honest};
pub use record::{BatchLists, Head, Heads, Journal, Journals, RunRecord};
pub use verdict::{CollidedAt, ForgedAt, Verdict};
