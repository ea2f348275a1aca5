//! Halves before whole messages, and silence.
ghost use Rattle.std.specs.Prelude.{◌≡◌, IfOk};
ghost use Rattle.std.specs.List.{flat_map};
ghost use Rattle.fault_script.specs.Deeds.{first_half};
ghost use Rattle.fault_script.specs.Twists.{noise_of};

use crate::deeds::{holds, view_of};
use plan_text::{Deed, DeedKind};
use seq_base::{Bytes, NoMemory, Outgoing, Packet};
use std::alloc::Global;

/// The sends that are not silenced, each after its first half if there is noise.
#[tactic(auto, using(std::proofs::lemmas::List::nil_from_length))]
pub(crate) fn noise(
    alloc: Global,
    deeds: &[Deed],
    own: u32,
    sends: Vec<Outgoing>,
) -> Result<Vec<Outgoing>, NoMemory>
    ensures { IfOk result (λ out. out.items ≡ flat_map (noise_of deeds.now own) sends.items) }
{
    let mut out = Vec::new(alloc);
    for send in sends {
        let view = view_of(send.bytes.as_slice());
        if !holds(deeds, own, DeedKind::Silent, view) {
            if holds(deeds, own, DeedKind::Noise, view) {
                out.push(Outgoing {
                    to: send.to,
                    bytes: half_of(alloc, send.bytes.as_slice())?,
                })?;
            }
            out.push(send)?;
        }
    }
    Ok(out)
}

/// The first half, with its length rounded down.
fn half_of(alloc: Global, bytes: &[u8]) -> Result<Packet, NoMemory>
    ensures { IfOk result (λ half. half ≡ first_half bytes.now) }
{
    let half = bytes[..bytes.len() / 2].to_vec(alloc)?;
    Packet::of(Bytes::of(half))
}
