//! Votes in a neighbour's name.
ghost use Rattle.std.specs.Prelude.{◌≡◌, IfOk};
ghost use Rattle.std.specs.List.{flat_map};
ghost use Rattle.fault_script.specs.Deeds.{neighbour};
ghost use Rattle.fault_script.specs.Twists.{forge_of, forged_for, forged_message};

use crate::deeds::{holds, message_of, packet_of, view_of};
use plan_text::{Deed, DeedKind};
use seq_base::{Digest, Message, NoMemory, Outgoing, Packet, Setting, Vote};
use std::alloc::Global;

/// The block of a forged vote.
const FORGED: Digest = Digest([0xff; 32]);

/// The sends, with a forged vote after each vote.
#[tactic(auto, using(std::proofs::lemmas::List::nil_from_length))]
pub(crate) fn forge(
    alloc: Global,
    deeds: &[Deed],
    setting: &Setting,
    own: u32,
    sends: Vec<Outgoing>,
) -> Result<Vec<Outgoing>, NoMemory>
    ensures { IfOk result (λ out. out.items ≡ flat_map (forge_of deeds.now setting.now.n own) sends.items) }
{
    let mut out = Vec::new(alloc);
    for send in sends {
        let to = send.to;
        let forged = forged_for(alloc, deeds, setting, own, send.bytes.as_slice())?;
        out.push(send)?;
        if let Some(bytes) = forged {
            out.push(Outgoing { to, bytes })?;
        }
    }
    Ok(out)
}

/// For a vote: a vote of the next replica in the same view, with the same seal and no order.
#[tactic(auto, unfolding(crate::specs::Twists::forged_for))]
fn forged_for(
    alloc: Global,
    deeds: &[Deed],
    setting: &Setting,
    own: u32,
    bytes: &[u8],
) -> Result<Option<Packet>, NoMemory>
    ensures { IfOk result (λ forged. forged ≡ forged_for deeds.now setting.now.n own bytes.now) }
{
    if !holds(deeds, own, DeedKind::Forge, view_of(bytes)) {
        return Ok(None);
    }
    let message = message_of(alloc, bytes)?;
    forged_message(alloc, setting, own, message)
}

fn forged_message(
    alloc: Global,
    setting: &Setting,
    own: u32,
    message: Option<Message>,
) -> Result<Option<Packet>, NoMemory>
    ensures { IfOk result (λ forged. forged ≡ forged_message setting.now.n own message) }
{
    match message {
        Some(Message::Vote { vote, .. }) => {
            let vote = Vote {
                replica: neighbour_of(setting, own),
                view: vote.view,
                block: FORGED,
                seal: vote.seal,
            };
            let forged = Message::Vote { vote, order: None };
            Ok(Some(packet_of(alloc, forged)?))
        }
        Some(
            Message::NewView { .. }
            | Message::Ask { .. }
            | Message::Order(_)
            | Message::Propose { .. }
            | Message::Fetch { .. }
            | Message::Give { .. },
        )
        | None => Ok(None),
    }
}

/// The next replica, in cyclic order.
fn neighbour_of(setting: &Setting, own: u32) -> u32
    ensures { result ≡ neighbour setting.now.n own }
{
    own.wrapping_add(1) % setting.n()
}
