//! The encoder of what replicas send and seal: messages, blocks, local orders, certificates and votes, and the
//! digests of blocks.
//!
//! What a crate above may rely on: the output of a writer is the encoding of the wire grammar, for every value. A
//! number or a count too wide for its field wraps, so only the encoding of a writable message is read back. This
//! crate depends on `seq_base`, which defines the grammar, and on `sha2`.
#![tactic(auto)]

mod digests;
mod fields;
mod parts;
mod sealed;
mod statements;
mod writers;

pub use digests::digest;
pub use sealed::{fetch_message, give_message, lone_vote_message, sealed_message, vote_message};
pub use statements::{
    ask_statement, new_view_statement, order_bytes, propose_statement, vote_bytes,
};
pub use writers::{cert_bytes, write_block, write_message};
