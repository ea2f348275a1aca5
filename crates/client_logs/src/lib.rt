//! Clients at shared logs: each submits its transactions to every log, in their order, in its own thread.
//!
//! What a layer above may rely on. At the places that a [`Client`] gained in a log are its transactions, in their
//! order. Each log holds all that the client has submitted, unless one refused the next transaction. A log whose
//! places are those of some passes, and which holds all their lists, is a merge of these
//! ([`shared_logs_are_merges`]). It is never full where the lists fit. The crate depends on `arrival_log`, and must
//! not know replicas or rounds.
#![tactic(auto)]

mod client;
mod laws;

pub use client::Client;
pub use laws::shared_logs_are_merges;
