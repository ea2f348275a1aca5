//! When a deed holds for a send.
ghost use Rattle.std.specs.Prelude.{◌≡◌, ◌==◌, IfOk};
ghost use Rattle.seq_base.specs.Spelling.{message_spelling};
ghost use Rattle.plan_text.specs.Deeds.{rank_of};
ghost use Rattle.fault_script.specs.Deeds.{covers, holds_for, deed_applies, message_in, view_in};
ghost use Rattle.fault_script.specs.Sealing.{SealsBy, SealsOn, sealed};

use plan_text::{Deed, DeedKind};
use seal_kit::{SealFault, Sealer};
use seq_base::{Bytes, Message, NoMemory, Packet, Seal};
use std::alloc::Global;
use wire_view::{MessageView, read};
use wire_write::write_message;

/// Whether a deed of a kind applies to a replica's send of a view. A deed of view 0 applies to every view, and to
/// messages that belong to none.
#[tactic(auto, unfolding(crate::specs::Deeds::holds_for))]
pub(crate) fn holds(deeds: &[Deed], replica: u32, kind: DeedKind, view: Option<u32>) -> bool
    ensures { result ≡ holds_for deeds.now replica kind view }
{
    deeds
        .iter()
        .any(|deed| deed_applies(deed, replica, kind, view))
}

fn deed_applies(deed: &Deed, replica: u32, kind: DeedKind, view: Option<u32>) -> bool
    ensures { result ≡ deed_applies deed.now replica kind view }
{
    deed.replica == replica && is_same_kind(deed.kind, kind) && covers(deed.view, view)
}

fn is_same_kind(one: DeedKind, other: DeedKind) -> bool
    ensures { result ≡ (rank_of one == rank_of other) }
{
    one == other
}

fn covers(of_deed: u32, view: Option<u32>) -> bool
    ensures { result ≡ covers of_deed view }
{
    match view {
        Some(view) => of_deed == 0 || view == of_deed,
        None => of_deed == 0,
    }
}

/// The view of a message: the block's for a proposal, none for Fetch and Give.
#[tactic(auto, unfolding(crate::specs::Deeds::view_in))]
pub(crate) fn view_of(bytes: &[u8]) -> Option<u32>
    ensures { result ≡ view_in bytes.now }
{
    match read(bytes) {
        Ok(MessageView::NewView(call)) => Some(call.view()),
        Ok(MessageView::Ask(call)) => Some(call.view()),
        Ok(MessageView::Order(order)) => Some(order.view()),
        Ok(MessageView::Propose(proposal)) => Some(proposal.block().view()),
        Ok(MessageView::Vote(vote)) => Some(vote.view()),
        Ok(MessageView::Fetch(_)) | Ok(MessageView::Give(_)) | Err(_) => None,
    }
}

/// The message that the bytes spell, if they spell one.
#[tactic(auto, unfolding(crate::specs::Deeds::message_in))]
pub(crate) fn message_of(alloc: Global, bytes: &[u8]) -> Result<Option<Message>, NoMemory>
    ensures { IfOk result (λ message. message ≡ message_in bytes.now) }
{
    match read(bytes) {
        Ok(message) => Ok(Some(message.own(alloc)?)),
        Err(_) => Ok(None),
    }
}

/// The bytes of a message, as a send has them.
pub(crate) fn packet_of(alloc: Global, message: Message) -> Result<Packet, NoMemory>
    ensures { IfOk result (λ packet. packet ≡ message_spelling message) }
{
    Packet::of(written(alloc, message)?)
}

/// Drops the message here, once, instead of at each way out of the caller.
fn written(alloc: Global, message: Message) -> Result<Bytes, NoMemory>
    ensures { IfOk result (λ bytes. bytes ≡ message_spelling message) }
{
    write_message(alloc, &message)
}

/// A seal of the bytes, or None if the sealer is spent.
pub(crate) fn seal_if_left<S: Sealer>(
    sealer: &mut S,
    bytes: &[u8],
) -> Result<Option<Seal>, NoMemory>
    ensures value { IfOk result (λ seal. SealsBy S.replica S.capacity S.gives S.made sealer.old sealer.new (λ s. sealed s bytes.now (λ seal. seal)) seal) }
    ensures sealer { SealsOn S.replica S.capacity S.gives S.made sealer.old sealer.new }
{
    match sealer.seal(bytes) {
        Ok(seal) => Ok(Some(seal)),
        Err(SealFault::Spent) => Ok(None),
        Err(SealFault::NoMemory) => Err(NoMemory),
    }
}
