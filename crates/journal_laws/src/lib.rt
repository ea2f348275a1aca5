//! What holds of every run of a node, whatever events it is given.
//!
//! A crate above may rely on this. At most one statement of each kind is sealed for a view, and the number of each
//! statement is its place among all that are sealed (`sealing`). The journal of an honest node is lawful by the rules
//! of `journal_rules`, and it shows the node's last lock, commit and final batches (`lawful`). Each law is the contract
//! of a function that only names what it rests on. The definitions are in `specs/`. The crate stands on `node_core` and
//! `journal_rules`, and on `agreement_laws`, to whose journals it maps those of nodes.
#![tactic(auto)]

mod lawful;
mod sealing;

pub use lawful::{journals_are_lawful, journals_show_where_nodes_stand};
pub use sealing::{each_kind_is_sealed_once_a_view, numbers_are_places, sealers_are_never_spent};
