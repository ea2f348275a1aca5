//! The run of a plan whose honest replicas log their events, and are stopped and restarted as the plan says.
//!
//! What a crate above may rely on. [`play_kept`] returns exactly the run that `replay_run` returns, whatever restarts
//! the plan has. At the end the keeper of each honest replica holds the log of its journal. The keeper was opened once,
//! and again at each restart whose turn was reached. The steps are those of `replay_run`, which logs each event before
//! the replica acts on it. This crate adds the start, in which the keepers of honest replicas are opened. It also adds
//! the restarts, in which a replica is reopened from what its keeper holds (`durable_node`). Tests are in `tests_keep`.
#![tactic(auto)]

mod fault;
mod opening;
mod play;
mod restarts;
mod steady;

pub use fault::PlayFault;
pub use play::play_kept;
pub use steady::play_restarting;
