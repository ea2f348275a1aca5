//! A NewView with the first block's certificate.
ghost use Rattle.std.specs.Prelude.{IfOk};
ghost use Rattle.fault_script.specs.Sealing.{SealsBy, SealsOn};
ghost use Rattle.fault_script.specs.Twists.{new_view_with, stale_message, stale_of};

use crate::deeds::{holds, message_of, seal_if_left, view_of};
use crate::sends::in_place;
use plan_text::{Deed, DeedKind};
use seal_kit::Sealer;
use seq_base::{Cert, Message, NoMemory, Outgoing};
use std::alloc::Global;
use wire_write::new_view_statement;

/// What a send becomes, or None if the sealer is spent.
#[tactic(auto, unfolding(crate::specs::Twists::stale_of))]
pub(crate) fn stale<S: Sealer>(
    alloc: Global,
    deeds: &[Deed],
    sealer: &mut S,
    send: Outgoing,
) -> Result<Option<Outgoing>, NoMemory>
    ensures value { IfOk result (λ out. SealsBy S.replica S.capacity S.gives S.made sealer.old sealer.new (λ s. stale_of deeds.now s send) out) }
    ensures sealer { SealsOn S.replica S.capacity S.gives S.made sealer.old sealer.new }
{
    let view = view_of(send.bytes.as_slice());
    if !holds(deeds, sealer.replica(), DeedKind::Stale, view) {
        return Ok(Some(send));
    }
    let message = message_of(alloc, send.bytes.as_slice())?;
    stale_message(alloc, sealer, send, message)
}

fn stale_message<S: Sealer>(
    alloc: Global,
    sealer: &mut S,
    send: Outgoing,
    message: Option<Message>,
) -> Result<Option<Outgoing>, NoMemory>
    ensures value { IfOk result (λ out. SealsBy S.replica S.capacity S.gives S.made sealer.old sealer.new (λ s. stale_message s send message) out) }
    ensures sealer { SealsOn S.replica S.capacity S.gives S.made sealer.old sealer.new }
{
    match message {
        Some(Message::NewView { replica, view, .. }) => {
            new_view_with(alloc, sealer, send, replica, view, Cert::first(alloc))
        }
        Some(
            Message::Ask { .. }
            | Message::Order(_)
            | Message::Propose { .. }
            | Message::Vote { .. }
            | Message::Fetch { .. }
            | Message::Give { .. },
        )
        | None => Ok(Some(send)),
    }
}

/// The message with this certificate instead of its own, sealed anew.
#[tactic(auto, unfolding(crate::specs::Twists::new_view_with))]
fn new_view_with<S: Sealer>(
    alloc: Global,
    sealer: &mut S,
    send: Outgoing,
    replica: u32,
    view: u32,
    cert: Cert,
) -> Result<Option<Outgoing>, NoMemory>
    ensures value { IfOk result (λ out. SealsBy S.replica S.capacity S.gives S.made sealer.old sealer.new (λ s. new_view_with s send replica view cert) out) }
    ensures sealer { SealsOn S.replica S.capacity S.gives S.made sealer.old sealer.new }
{
    let statement = new_view_statement(alloc, replica, view, &cert)?;
    let Some(seal) = seal_if_left(sealer, statement.as_slice())? else {
        return Ok(None);
    };
    let message = Message::NewView {
        replica,
        view,
        cert,
        seal,
    };
    Ok(Some(in_place(alloc, send, message)?))
}
