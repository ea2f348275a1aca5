//! The walk over the seals of a message, before a turn checks them. What learns from them is a [`Learner`]: at `open` the
//! checker of the keys, which learns the heads of the whole log; at `prepare` it is the cache, which checks each seal and
//! remembers it; and on another thread a verifier, which checks its share of them. The statement of each seal is the one over which the turn checks it. Learning changes no answer of a
//! checker. It ends at the first seal of a message that is not learned, so a message with a bad seal costs one check more.
ghost use Rattle.std.specs.Prelude.{◌≡◌};

use node_core::Event;
use wire_view::{
    BlockView, CallView, CertView, MessageView, OrderView, ProposeView, VoteView, read,
};
use wire_write::vote_bytes;

/// What learns from the seals of messages.
pub(crate) trait Learner {
    /// Learns from a replica's seal for a statement, and returns whether the walk continues with the next seal. No answer
    /// changes.
    fn learn(&mut self, replica: u32, statement: &[u8], seal: &[u8]) -> bool
        ensures { self.new ≡ self.old };
}

/// Learns from the messages that events deliver, in their order.
pub(crate) fn learn_events<L: Learner>(learner: &mut L, events: &[Event])
    ensures { learner.new ≡ learner.old }
{
    for event in events {
        learn_event(learner, 0, event);
    }
}

/// Learns from the message that an event delivers, if it delivers one, and it is not too old for a node in this view.
pub(crate) fn learn_event<L: Learner>(learner: &mut L, view: u32, event: &Event)
    ensures { learner.new ≡ learner.old }
{
    match event {
        Event::Deliver { from, bytes } => learn_bytes(learner, view, *from, bytes.as_slice()),
        Event::Arrived(_) | Event::Tick { floor: _ } => {},
    }
}

/// Learns from the bytes that a replica sent. Bytes that are no message have nothing to learn from.
pub(crate) fn learn_bytes<L: Learner>(learner: &mut L, view: u32, from: u32, bytes: &[u8])
    ensures { learner.new ≡ learner.old }
{
    match read(bytes) {
        Ok(message) => learn_fresh(learner, view, from, &message),
        Err(_) => {},
    }
}

fn learn_fresh<L: Learner>(learner: &mut L, view: u32, from: u32, message: &MessageView<'_>)
    ensures { learner.new ≡ learner.old }
{
    if !is_skipped(view, from, message) {
        let _all_known = learn_message(learner, message);
    }
}

/// Whether nothing is learned from a message in this view: it names another sender, or its view is too old. A turn refuses
/// such a message before it checks a seal. It has more such tests, which need the node's state.
fn is_skipped(view: u32, from: u32, message: &MessageView<'_>) -> bool {
    match message {
        MessageView::NewView(call) | MessageView::Ask(call) => {
            call.replica() != from || call.view() < view
        },
        MessageView::Order(order) => order.replica() != from || order.view() < view,
        MessageView::Propose(propose) => {
            propose.replica() != from || propose.block().view() < view
        },
        // The leader of the next view, which gathers the votes of a view, is mostly in the next view itself.
        MessageView::Vote(vote) => vote.replica() != from || vote.view() < view.saturating_sub(1),
        MessageView::Fetch(_) | MessageView::Give(_) => false,
    }
}

/// Returns whether all seals in the message are known now, as the functions below do for their parts.
fn learn_message<L: Learner>(learner: &mut L, message: &MessageView<'_>) -> bool
    ensures { learner.new ≡ learner.old }
{
    match message {
        MessageView::NewView(call) => learn_call(learner, call),
        MessageView::Ask(call) => learn_call(learner, call),
        MessageView::Order(order) => learn_order(learner, order),
        MessageView::Propose(propose) => learn_propose(learner, propose),
        MessageView::Vote(vote) => learn_vote(learner, vote),
        MessageView::Fetch(_) => true,
        MessageView::Give(block) => learn_block(learner, block),
    }
}

/// The sender's seal, and the votes of its certificate.
fn learn_call<L: Learner>(learner: &mut L, call: &CallView<'_>) -> bool
    ensures { learner.new ≡ learner.old }
{
    learner.learn(call.replica(), call.statement(), call.seal())
        && learn_cert(learner, &call.cert())
}

/// The leader's seal, and the seals of its block.
fn learn_propose<L: Learner>(learner: &mut L, propose: &ProposeView<'_>) -> bool
    ensures { learner.new ≡ learner.old }
{
    learner.learn(propose.replica(), propose.statement(), propose.seal())
        && learn_block(learner, &propose.block())
}

/// The sender's seal, and that of the local order that the vote carries.
fn learn_vote<L: Learner>(learner: &mut L, vote: &VoteView<'_>) -> bool
    ensures { learner.new ≡ learner.old }
{
    if !learner.learn(vote.replica(), vote.statement(), vote.seal()) {
        return false;
    }
    match vote.order() {
        Some(order) => learn_order(learner, &order),
        None => true,
    }
}

fn learn_order<L: Learner>(learner: &mut L, order: &OrderView<'_>) -> bool
    ensures { learner.new ≡ learner.old }
{
    learner.learn(order.replica(), order.statement(), order.seal())
}

/// The votes of the block's certificate, and its local orders.
fn learn_block<L: Learner>(learner: &mut L, block: &BlockView<'_>) -> bool
    ensures { learner.new ≡ learner.old }
{
    learn_cert(learner, &block.cert()) && learn_orders(learner, block)
}

fn learn_orders<L: Learner>(learner: &mut L, block: &BlockView<'_>) -> bool
    ensures { learner.new ≡ learner.old }
{
    for k in 0..block.len() {
        if !learn_order_at(learner, block, k) {
            return false;
        }
    }
    true
}

fn learn_order_at<L: Learner>(learner: &mut L, block: &BlockView<'_>, k: u32) -> bool
    ensures { learner.new ≡ learner.old }
{
    match block.order(k) {
        Some(order) => learn_order(learner, &order),
        None => true,
    }
}

/// The votes of a certificate.
fn learn_cert<L: Learner>(learner: &mut L, cert: &CertView<'_>) -> bool
    ensures { learner.new ≡ learner.old }
{
    for k in 0..cert.len() {
        if !learn_cert_vote(learner, cert, k) {
            return false;
        }
    }
    true
}

/// A vote in a certificate has the certificate's view and block.
fn learn_cert_vote<L: Learner>(learner: &mut L, cert: &CertView<'_>, k: u32) -> bool
    ensures { learner.new ≡ learner.old }
{
    match cert.vote(k) {
        Some((replica, seal)) => {
            let statement = vote_bytes(replica, cert.view(), &cert.block());
            learner.learn(replica, &statement, seal)
        },
        None => true,
    }
}
