//! The threaded run of a plan: each replica and each client is a worker in its own thread, in rounds.
//!
//! What a crate above may rely on. The record that [`threads`] returns is that of a run in rounds (`Ran` of
//! `round_rules`), in whatever order the steps of the workers come. In a round each replica makes one tick or none and
//! at most 32 deliveries, while each client submits 64 transactions to every log. Before a round each replica is
//! informed of what was sent to its mailbox. So it delivers as many envelopes as it may, or all that had been sent to
//! it when the round began. Between two rounds the driver submits what arrives by the plan. It informs each replica's
//! pass of what was submitted to its log, and compares every mailbox with every sender. A tick comes only where
//! everything that was sent was received.
//!
//! The crate runs the same replicas as the exact run (`replica_seat`), over shared logs (`client_logs`) and mailboxes
//! (`mailbox`). It must not know how the exact run orders its turns. A worker that is out of memory ends the run after
//! its round, and nothing waits for it. Only a test shows that workers really run concurrently (`tests_threads`).
#![tactic(auto)]

mod driver;
mod exchange;
mod finish;
mod news;
mod pairs;
mod replica;
mod round;
mod runs;
mod start;
mod world;

pub use runs::threads;
