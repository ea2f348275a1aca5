//! The parsers of the texts that the program reads. Each fault is reported with its position.
//!
//! What a crate above may rely on:
//!
//! - An order text that is read has as many lists as its setting's quorum. Each list is distinct and has at most 128
//!   transactions.
//! - A plan that is read meets the rules of plans, and gives no replica a transaction twice.
//!
//! The crate depends on `seq_base`, `count_set`, `seal_kit` and `toml`, and must not know what is done with the lists
//! and plans.
#![tactic(auto)]

mod arrivals;
mod clients;
mod deeds;
mod fault;
mod faulty;
mod fields;
mod head;
mod lines;
mod links;
mod order;
mod order_laws;
mod plan;
mod plan_laws;
mod read;
mod restarts;
mod values;

pub use fault::{FaultKind, PlanError, PlanFault};
pub use order::{OrderText, read_order_text};
pub use order_laws::order_texts_are_read_as_spelled;
pub use plan::{
    Arrival, Arrivals, Client, Clients, Deed, DeedKind, Deeds, LinkFault, LinkKind, Links, Plan,
    Restart, Restarts,
};
pub use plan_laws::plans_keep_transactions_apart;
pub use read::read_plan;
