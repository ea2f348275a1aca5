//! Reads messages in place. A view borrows from the bytes, and copies nothing until a caller asks for an owned copy.
//!
//! A crate above may rely on this. [`read`] accepts exactly the spellings of the wire grammar; for other bytes it
//! returns the first fault from left to right. In contracts the value of a view is the part of the message that it
//! shows, and the view's bytes are the spelling of that part. Only the calls named `own` allocate. The crate depends on
//! `seq_base`, which defines the grammar.
#![tactic(auto)]

mod block;
mod cert;
mod fault;
mod fields;
mod laws;
mod messages;
mod order;
mod orders;
mod reading;
mod txs;
mod votes;

pub use block::BlockView;
pub use cert::CertView;
pub use fault::WireFault;
pub use laws::{no_bytes_spell_two_messages, spellings_are_read, what_is_read_is_spelled};
pub use messages::{CallView, MessageView, ProposeView, VoteView};
pub use order::OrderView;
pub use reading::read;
pub use txs::{TxsView, read_tx};
