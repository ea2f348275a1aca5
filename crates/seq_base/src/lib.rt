//! The data types of the protocol, on which every other crate of Themis builds: transactions, settings, lists of
//! transactions, and messages.
//!
//! What a crate above may rely on:
//!
//! - A [`Setting`] is valid, and its threshold is at most its solid count.
//! - The text of a transaction is read exactly as it is written.
//! - Contracts see each list type as the list that it holds.
//!
//! This crate depends on the standard library alone.
#![tactic(auto)]

mod block;
mod decimal;
mod digest;
mod items;
mod key_text;
pub mod kinds;
mod laws;
mod lists;
mod memory;
mod message;
mod order;
mod packet;
mod setting;
mod tx;

pub use block::{Block, Cert, CertVote, CertVotes, SealedOrders, Vote};
pub use decimal::{parse_u32, parse_u64};
pub use digest::Digest;
pub use items::Items;
pub use key_text::KeyText;
pub use laws::thresholds_are_low;
pub use lists::{BatchList, Bytes, Seal, TxList, TxLists};
pub use memory::NoMemory;
pub use message::{Message, Outgoing, Outgoings};
pub use order::{LocalOrder, SealedOrder};
pub use packet::Packet;
pub use setting::{Setting, SettingFault};
pub use tx::Tx;
