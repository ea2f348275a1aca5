//! The tests of the turn table, one file for each kind of message. The first test that holds gives the reason. Tests
//! that read the message in place come first. Those of what it carries, a block or an order, need an owned copy and have
//! a function of their own.

mod ask;
mod give;
mod new_view;
mod order;
mod propose;
mod shared;
mod vote;

pub(crate) use ask::ask_reason;
pub(crate) use give::{give_reason, given_block_reason};
pub(crate) use new_view::new_view_reason;
pub(crate) use order::{order_reason, owned_order_reason};
pub(crate) use propose::{propose_reason, proposed_block_reason};
pub(crate) use vote::{owned_vote_reason, vote_reason};
