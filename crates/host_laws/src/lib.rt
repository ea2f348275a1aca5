//! Laws of a host: a program that stores a replica's log and drives the replica, as `themis.h` describes it. No code.
//!
//! `specs/Steps` defines a host's run by its steps: the replica is opened from the durable bytes of its log, the header is
//! written, events are prepared, their records are appended and synced, the replica acts on them, and the host crashes at any
//! moment, also within a write. A step that calls the replica rests on the clauses of the call in `replica_box`. So a host
//! that makes these calls as it promises makes such a run. A crate above may rely on this, for any secret:
//!
//! - No leaf seals two statements over the whole run, however many crashes are in it ([`a_hosts_leaves_seal_once`]).
//! - The turns since the first opening are those of a node that never crashed, and are a lawful journal
//!   ([`hosts_journals_are_lawful`]).
//! - If at most f replicas are not hosted so, and nothing is forged or collides, the headline holds of the batches that these
//!   replicas give, and what one of them gave is a prefix of what it gives later ([`hosted_replicas_are_ordered`]).
//! - An event is prepared with a record exactly if its turn would change the replica ([`prepared_records_are_exact`]).
//!
//! Without the promises this is false: [`hasty_hosts_seal_twice`]. The premises can be met: [`a_host_may_crash_in_a_record`].
//! The crate joins `replica_box`, `lifetime_laws` and `headline_laws`, and must not know how bytes are written or sent.
#![tactic(auto)]

mod below;
mod examples;
mod journals;
mod ordered;
mod records;
mod seals;

pub use examples::{a_host_may_crash_in_a_record, hasty_hosts_seal_twice};
pub use journals::hosts_journals_are_lawful;
pub use ordered::hosted_replicas_are_ordered;
pub use records::prepared_records_are_exact;
pub use seals::a_hosts_leaves_seal_once;
