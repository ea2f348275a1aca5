//! A lock with a history: a value that only grows, and that threads access in turns.
//!
//! What a layer above may rely on. The list of the value has one history, and each turn appends to it. A [`Pass`]
//! knows a prefix of the history, its *own places*, and a number of parts. Its own places are the positions that were
//! appended in turns taken with it.
//!
//! - What a pass has seen is a prefix of every later list.
//! - Every position is an own place of exactly one pass.
//! - The parts of all passes add up to those of the start, so the pass that has all parts has the whole history.
//!
//! [`LockedLog::with_lock`] waits for the lock. Every other call returns: it takes the same few steps whether the lock
//! is held or not. The history exists in contracts only. At run time there are two words, the lock and the length,
//! and one slot for the value. The crate depends on `atomic_table`, which proves the single steps, and must not know
//! what is in the list.
#![tactic(auto)]

mod grows;
mod log;
mod pass;
mod plays;
mod view;

pub use grows::{Grows, Job};
pub use log::LockedLog;
pub use pass::Pass;
