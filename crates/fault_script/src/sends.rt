//! All deeds of a faulty replica, in their order.
ghost use Rattle.std.specs.Prelude.{◌≡◌, IfOk, []};
ghost use Rattle.fault_script.specs.Sealing.{SealsBy, SealsOn};
ghost use Rattle.fault_script.specs.Twists.{in_place, reverse_of, stale_of, through, twisted};

use crate::deeds::packet_of;
use crate::forge::forge;
use crate::noise::noise;
use crate::reverse::reverse;
use crate::stale::stale;
use crate::two_blocks::two_blocks;
use plan_text::Deed;
use seal_kit::Sealer;
use seq_base::{Message, NoMemory, Outgoing, Setting};
use std::alloc::Global;

/// What a faulty replica sends instead of its node's sends. The deeds are applied to all sends one after another: first
/// stale, then reverse, two_blocks, forge, noise and silent. If the sealer is spent, a send that needs a new seal is
/// left out. If memory runs out, the sealer may have made some more seals.
#[tactic(auto, unfolding(crate::specs::Twists::twisted))]
pub fn twist<S: Sealer>(
    alloc: Global,
    deeds: &[Deed],
    setting: &Setting,
    sealer: &mut S,
    sends: Vec<Outgoing>,
) -> Result<Vec<Outgoing>, NoMemory>
    ensures value { IfOk result
        (λ out. SealsBy S.replica S.capacity S.gives S.made sealer.old sealer.new (λ s. twisted deeds.now setting.now.n s sends.items) out.items) }
    ensures sealer { SealsOn S.replica S.capacity S.gives S.made sealer.old sealer.new }
{
    let own = sealer.replica();
    let sends = all_stale(alloc, deeds, sealer, sends)?;
    let sends = all_reversed(alloc, deeds, sealer, sends)?;
    let sends = two_blocks(alloc, deeds, setting, sealer, sends)?;
    let sends = forge(alloc, deeds, setting, own, sends)?;
    noise(alloc, deeds, own, sends)
}

#[tactic(auto, using(std::proofs::lemmas::List::nil_from_length))]
fn all_stale<S: Sealer>(
    alloc: Global,
    deeds: &[Deed],
    sealer: &mut S,
    sends: Vec<Outgoing>,
) -> Result<Vec<Outgoing>, NoMemory>
    ensures value { IfOk result
        (λ out. SealsBy S.replica S.capacity S.gives S.made sealer.old sealer.new (λ s. through (stale_of deeds.now) s [] sends.items) out.items) }
    ensures sealer { SealsOn S.replica S.capacity S.gives S.made sealer.old sealer.new }
{
    let mut out = Vec::new(alloc);
    for send in sends {
        if let Some(send) = stale(alloc, deeds, sealer, send)? {
            out.push(send)?;
        }
    }
    Ok(out)
}

#[tactic(auto, using(std::proofs::lemmas::List::nil_from_length))]
fn all_reversed<S: Sealer>(
    alloc: Global,
    deeds: &[Deed],
    sealer: &mut S,
    sends: Vec<Outgoing>,
) -> Result<Vec<Outgoing>, NoMemory>
    ensures value { IfOk result
        (λ out. SealsBy S.replica S.capacity S.gives S.made sealer.old sealer.new (λ s. through (reverse_of deeds.now) s [] sends.items) out.items) }
    ensures sealer { SealsOn S.replica S.capacity S.gives S.made sealer.old sealer.new }
{
    let mut out = Vec::new(alloc);
    for send in sends {
        if let Some(send) = reverse(alloc, deeds, sealer, send)? {
            out.push(send)?;
        }
    }
    Ok(out)
}

/// A message that replaces a send.
pub(crate) fn in_place(
    alloc: Global,
    send: Outgoing,
    message: Message,
) -> Result<Outgoing, NoMemory>
    ensures { IfOk result (λ out. out ≡ in_place send message) }
{
    Ok(Outgoing {
        to: send.to,
        bytes: packet_of(alloc, message)?,
    })
}
