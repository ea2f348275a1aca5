//! The order in which a replica received transactions: a log that holds each once, and a log that threads share.
//!
//! What a layer above may rely on. Contracts see a [`Log`] as its list of transactions, which is distinct and has at
//! most 65,536 entries. The position of a transaction is found without a search. A [`SharedLog`] has one history of
//! such lists. Each pass knows a prefix of it, and the places of what was submitted with the pass. The pass that has
//! all parts gets the whole log. The crate depends on `locked_log` and on `indexmap`, and must not know who submits or
//! why.
#![tactic(auto)]

mod jobs;
mod laws;
mod log;
mod pass;
mod shared;

pub use laws::a_submission_has_one_answer;
pub use log::{Log, Placed, SubmitFault};
pub use pass::LogPass;
pub use shared::SharedLog;
