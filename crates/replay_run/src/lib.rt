//! The exact run of a plan: all replicas over one queue, one event at a time.
//!
//! What a crate above may rely on. [`play`] returns the record of the run that the plan describes, with every link
//! fault and every deed, and the same record each time. A run ends by its own rules. A driver can also make the steps
//! of a [`Network`] one by one, and may pass [`Keepers`] to it. Then each event of a logged replica is in its keeper's
//! log before the replica acts on it. This crate stands on replicas as defined in `replica_seat`, and on the log of
//! `durable_node`.
#![tactic(auto)]

mod keepers;
mod laws;
mod network;
mod runs;
mod seats;
mod start;

pub use keepers::{Keepers, Keeping, StepFault, fault_of, keys_of};
pub use laws::{runs_end, runs_end_for_a_cause, steps_get_on};
pub use network::Network;
pub use runs::{most_steps, play, record_of};
pub use start::network_of;
