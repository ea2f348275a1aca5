//! What holds over all lifetimes of a replica that crashes and is started again.
//! A crate above may rely on this: a leaf of a replica's sealer seals one statement, however often the replica crashed
//! (`lifetimes`), and the journals of its lifetimes, joined, are one lawful journal (`joined`). `durable_node` defines a lifetime;
//! clauses of `DurableNode` state that it is led, and what it leaves to the next one. This crate stands on `durable_node`,
//! `journal_laws` and `wire_view`.
#![tactic(auto)]

mod joined;
mod lifetimes;

pub use joined::joined_journals_are_lawful;
pub use lifetimes::no_leaf_seals_twice;
