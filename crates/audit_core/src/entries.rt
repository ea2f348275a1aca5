//! What a single entry of a journal shows.
ghost use Rattle.std.specs.Prelude.{◌≡◌, IfSome};
ghost use Rattle.seq_base.specs.Writable.{IsWritable};
ghost use Rattle.wire_view.specs.Messages.{message_of};
ghost use Rattle.node_core.specs.Delivered.{message_in};
ghost use Rattle.journal_rules.specs.JournalPrefixes.{arrived_by};
ghost use Rattle.journal_rules.specs.Shown.{is_done};
ghost use Rattle.journal_rules.specs.Tests.{are_own};
ghost use Rattle.audit_core.specs.Judging.{is_idle};

use crate::statements::are_own;
use node_core::{Entry, Event, Reason};
use seq_base::Tx;
use wire_view::{MessageView, read};

/// The transactions that arrived with an event.
pub(crate) fn arrived(entry: &Entry) -> &[Tx]
    ensures { result.now ≡ arrived_by entry.now.event }
{
    match &entry.event {
        Event::Arrived(list) => list.as_slice(),
        Event::Deliver { .. } => &[],
        Event::Tick { .. } => &[],
    }
}

/// The message that an entry delivered, or None if it delivered nothing that reads as a message.
pub(crate) fn delivered(entry: &Entry) -> Option<MessageView<'_>>
    ensures value { result ≡ message_in entry.now.event }
    ensures writable { IfSome result (λ message. IsWritable (message_of message)) }
{
    match &entry.event {
        Event::Deliver { bytes, .. } => read(bytes.as_slice()).ok(),
        Event::Arrived(_) => None,
        Event::Tick { .. } => None,
    }
}

pub(crate) fn is_done(reason: Reason) -> bool
    ensures { result ≡ is_done reason }
{
    match reason {
        Reason::Done => true,
        Reason::BadWire(_) => false,
        Reason::Foreign => false,
        Reason::ViewLimit => false,
        Reason::NotLeader => false,
        Reason::OldView => false,
        Reason::BadSeal => false,
        Reason::BadCert => false,
        Reason::Orphan => false,
        Reason::Misfit => false,
        Reason::Clash => false,
        Reason::Unsafe => false,
        Reason::Repeat => false,
    }
}

/// Whether an entry is Done, or else has no arrivals and seals nothing.
pub(crate) fn is_idle(entry: &Entry) -> bool
    ensures { result ≡ is_idle entry.now }
{
    is_done(entry.turned.reason)
        || (arrived(entry).is_empty() && entry.turned.sealed.as_slice().is_empty())
}

/// Whether each statement that an entry seals names this replica.
pub(crate) fn seals_its_own(replica: u32, entry: &Entry) -> bool
    ensures { result ≡ are_own replica entry.now.turned.sealed }
{
    are_own(replica, entry.turned.sealed.as_slice())
}
