//! One copy of equal packets.
ghost use Rattle.std.specs.Prelude.{◌≡◌, IfOk};

use node_core::Turned;
use seq_base::{NoMemory, Outgoing, Outgoings, Packet};
use std::alloc::Global;
use std::collections::BTreeMap;
use std::hash::{DefaultHasher, Hasher};

/// The maximum number of bytes of a packet that are hashed.
const HASHED_BYTES: usize = 64;

/// Packets that were sent or delivered, by a hash of their bytes. A replica that was cut off fetches the same blocks
/// again and again, and each answer is a new message. The journals hold one copy of all equal packets.
pub struct Pool {
    alloc: Global,
    packets: BTreeMap<u64, Packet>,
}

impl Drop for Pool {
    fn drop(self) {
        let Pool {
            alloc: _,
            packets: _,
        } = self;
    }
}

impl Pool {
    pub fn new(alloc: Global) -> Pool {
        Pool {
            alloc,
            packets: BTreeMap::new(alloc),
        }
    }

    /// The same bytes, in the first packet that had them. Of different packets with the same hash only the first is
    /// pooled.
    pub fn pooled(&mut self, packet: Packet) -> Result<Packet, NoMemory>
        ensures { IfOk result (λ one. one ≡ packet) }
    {
        let hash = hash_of(packet.as_slice());
        match self.packets.get(&hash) {
            Some(first) => first_of(first, packet),
            None => {
                self.packets.insert(hash, packet.share()?)?;
                Ok(packet)
            }
        }
    }

    /// The output of a turn, with pooled sends.
    pub(crate) fn pooled_turn(&mut self, mut turned: Turned) -> Result<Turned, NoMemory>
        ensures { IfOk result (λ pooled. pooled ≡ turned) }
    {
        let sends = turned.take_sends(self.alloc);
        turned.sends = Outgoings::of(self.pooled_sends(sends)?);
        Ok(turned)
    }

    fn pooled_sends(&mut self, sends: Vec<Outgoing>) -> Result<Vec<Outgoing>, NoMemory>
        ensures { IfOk result (λ pooled. pooled.items ≡ sends.items) }
    {
        let mut pooled = Vec::new(self.alloc);
        for send in sends {
            let send = self.pooled_send(send)?;
            pooled.push(send)?;
        }
        Ok(pooled)
    }

    fn pooled_send(&mut self, send: Outgoing) -> Result<Outgoing, NoMemory>
        ensures { IfOk result (λ pooled. pooled ≡ send) }
    {
        let bytes = self.pooled(send.bytes.share()?)?;
        Ok(Outgoing { to: send.to, bytes })
    }
}

/// The first of two packets if they are equal, otherwise the second.
fn first_of(first: &Packet, packet: Packet) -> Result<Packet, NoMemory>
    ensures { IfOk result (λ one. one ≡ packet) }
{
    if first.as_slice() == packet.as_slice() {
        first.share()
    } else {
        Ok(packet)
    }
}

/// A hash of the length and of the first bytes, where a message has its kind, its replica, its view and a digest.
fn hash_of(bytes: &[u8]) -> u64 {
    let mut hasher = DefaultHasher::new();
    hasher.write(&(bytes.len() as u64).to_be_bytes());
    hasher.write(&bytes[..bytes.len().min(HASHED_BYTES)]);
    hasher.finish()
}
