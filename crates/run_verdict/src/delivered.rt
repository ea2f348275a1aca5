//! What an entry of a journal delivered.
ghost use Rattle.std.specs.Prelude.{◌≡◌, IfSome};
ghost use Rattle.seq_base.specs.Writable.{IsWritable, IsWritableBlock};
ghost use Rattle.wire_view.specs.Messages.{message_of};
ghost use Rattle.run_verdict.specs.Delivered.{delivered, delivered_block};

use node_core::{Entry, Event};
use wire_view::{BlockView, MessageView, read};

/// The message that an entry delivered. None if it delivered nothing that reads as one.
pub(crate) fn delivered(entry: &Entry) -> Option<MessageView<'_>>
    ensures value { result ≡ delivered entry.now }
    ensures writable { IfSome result (λ message. IsWritable (message_of message)) }
{
    match &entry.event {
        Event::Deliver { bytes, .. } => read(bytes.as_slice()).ok(),
        Event::Arrived(_) => None,
        Event::Tick { .. } => None,
    }
}

/// The block that an entry delivered in a Propose or a Give.
pub(crate) fn delivered_block(entry: &Entry) -> Option<BlockView<'_>>
    ensures value { result ≡ delivered_block entry.now }
    ensures writable { IfSome result (λ block. IsWritableBlock block) }
{
    match delivered(entry)? {
        MessageView::Propose(propose) => Some(propose.block()),
        MessageView::Give(block) => Some(block),
        MessageView::NewView(_)
        | MessageView::Ask(_)
        | MessageView::Order(_)
        | MessageView::Vote(_)
        | MessageView::Fetch(_) => None,
    }
}
