//! One replica of a run: its node, what arrives at it, its journal, and its links.
//!
//! A driver above may rely on this. One event of a [`Seat`] is one turn of its node. The sends of the turn go through
//! the deeds of a faulty replica and then through the links; the entry of the turn goes to the journal. What the links
//! give is appended to the messages in transit. [`seats_of`] makes the replicas of a plan. [`arrivals_of`],
//! [`heads_of`], [`batches_of`] and [`journals_of`] are what a record shows of them. This crate stands on nodes, plans,
//! links and deeds. It does not know which event comes when.
#![tactic(auto)]

mod arrivals;
mod pool;
mod record;
mod seat;
mod start;

pub use arrivals::{Feed, TimedTx};
pub use pool::Pool;
pub use record::{arrivals_of, batches_of, due_among, heads_of, journals_of};
pub use seat::{Envelope, Seat};
pub use start::{seat_of, seats_of};
