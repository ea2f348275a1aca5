//! A replica for a host, which is a program that stores the log itself: a node with its sealer and its checker, the
//! prepared events with their records, and the output of the last turn.
//!
//! A log starts with a header of 76 bytes, which names its owner: the host writes it to a new log first. Then the host
//! prepares events, appends their records to its log, makes them durable, and lets the replica act on the events in the same
//! order. Several events may be prepared before the first turn, so that one sync serves them all. An event that would change
//! nothing has no record, so a peer that sends garbage fills no log. A crate above may rely on this:
//!
//! - [`Replica::open`] returns the replica in the state that results from replaying the log, or the reason why it refuses.
//!   It refuses the log of another replica, setting, set of keys or height of these, and a log in which a record was changed,
//!   removed or exchanged before its last ones.
//! - A turn has exactly the outcome of the node's turn: its state, its seals and its messages (`HasTurned`).
//! - If the host follows these steps, its log stays the log of an incarnation (`Lifetime`; see `HasLogged` and `Continues`
//!   in `specs/Hosting`). So the laws of `host_laws` apply.
//! - The replica accepts exactly the seals that fit under the public keys, whatever it remembers of seals that it checked
//!   before (`seal_cache`). So may a [`Verifier`] check seals ahead, on another thread: what it accepted is remembered only by
//!   a replica with the same public keys, and its own ring of each replica (`Replica::take_verified`).
//!
//! The crate depends on `durable_node`, which defines the format of the log, on `hss_seal`: a key has one tree or two
//! levels, and on `wire_write` for the statements of votes in certificates. Tests are in `tests_box`.
#![tactic(auto)]

mod acting;
mod certified;
mod fault;
mod keyed_checker;
mod laws;
mod learning;
mod opening;
mod owner;
mod prepared;
mod preparing;
mod receiving;
mod recent_seals;
mod replica;
mod seal_cache;
mod shown;
mod texts;
mod verifier;

pub use fault::{ActFault, OpenFault, PrepareFault};
pub use laws::{hosts_keep_logs, logs_fix_what_opens_them, records_continue_logs};
pub use opening::Role;
pub use replica::Replica;
pub use verifier::Verifier;
