//! What a replica received, and which of it arrives when: the part of a replica that decides who comes first.
//!
//! A replica stamps each transaction that it receives with its Lamport clock, and reports its receipts with their stamps
//! to its peers, in order. The key of a transaction is the k-th smallest stamp that the replica heard of. In a burst
//! transactions arrive by ascending keys, so no single replica decides who comes first.
//!
//! What a layer above may rely on: contracts see a [`Desk`] as a record of its clocks, of what it holds in the order of
//! receipt, and of what is final. Each call is one equation between such records. A call that runs out of memory leaves
//! the desk as it was. An [`Intake`] is a desk with what accepted blocks say of the transactions that wait: it decides how
//! fast they arrive, and what still arrives while a session closes. Contracts see the desk alone.
//!
//! The crate depends on `seq_base` and `indexmap`, and must not know blocks, nodes, clocks of a machine or sockets.
#![tactic(auto)]

mod arrivals;
mod arrive;
mod chain;
mod choice;
mod desk;
mod exceptions;
mod hear;
mod hints;
mod intake;
mod keys;
mod lists;
mod naming;
mod receive;
mod settle;
mod slot;

pub use arrivals::Arrivals;
pub use chain::Chain;
pub use desk::Desk;
pub use hints::ShownList;
pub use intake::Intake;
pub use slot::{Bound, Keyed, Receipt, Standing, Taken};
