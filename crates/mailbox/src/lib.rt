//! A mailbox that several senders fill and one receiver empties, each in its own thread.
//!
//! What a layer above may rely on. What was received from each sender is a prefix of what it sent, each message whole
//! and once. [`Mailbox::all_taken`] proves this for the two passes it is given, and returns whether everything was
//! received. [`Mailbox::take`] returns None only where the mailbox was empty at some step of that call. Then
//! everything that the receiver had been informed of by [`Mailbox::hear`] was received. About a message that it was
//! not informed of, None implies nothing. Between different senders there is no order. The crate depends on the
//! unbounded queue of `crossbeam_queue`, and must not know what the bytes mean.
#![tactic(auto)]

mod envelope;
mod laws;
mod mailbox;
mod passes;
mod rule;

pub use envelope::Envelope;
pub use laws::{
    a_mailbox_with_a_message_is_not_empty, an_empty_mailbox_keeps_nothing_back,
    what_was_heard_was_taken,
};
pub use mailbox::Mailbox;
pub use passes::{SendPass, TakePass};
