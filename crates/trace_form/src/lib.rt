//! The record of a run as bytes, both ways, in two forms: with the seed of all keys, or with the public keys.
//! A crate above may rely on this. [`read_trace`] returns exactly what the bytes record, or the place of the first
//! faulty field. [`write_trace`] returns the only spelling of the record made bare. No bytes spell two traces. It
//! stands on `node_core`, whose records these are. It must not know whether a record conforms to the protocol.
#![tactic(auto)]

mod account;
mod contents;
mod fault;
mod fields;
mod keys;
mod laws;
mod opening;
mod put;
mod reading;
mod trace;
mod writing;

pub use fault::TraceFault;
pub use keys::{Keys, PublicKeys};
pub use laws::{
    no_bytes_spell_two_traces, spellings_are_read, what_is_read_is_bare, what_is_read_is_spelled,
    what_is_written_is_read,
};
pub use reading::read_trace;
pub use trace::Trace;
pub use writing::write_trace;
