//! Immutable bytes in transit. All holders share one copy.
ghost use Rattle.std.specs.Prelude.{◌≡◌, IfOk};

use crate::{Bytes, NoMemory};
use std::marker::Model;
use std::sync::ArcSlice;

/// The bytes of a message that is sent. The sender's journal, the queue and each receiver's journal hold the same
/// copy, however many receivers there are. Contracts see the bytes.
pub struct Packet {
    bytes: ArcSlice<u8>,
}

impl Drop for Packet {
    fn drop(self) {
        let Packet { bytes: _ } = self;
    }
}

impl Model for Packet {
    ghost use Rattle.std.specs.Prelude.{ℕ, List};
    ghost use Rattle.std.specs.Arc.{arc_slice_items};

    ghost Value = { List ℕ };

    ghost view = { λ packet. arc_slice_items packet.bytes };
}

impl Packet {
    /// Keeps no more capacity than the bytes need.
    pub fn of(bytes: Bytes) -> Result<Packet, NoMemory>
        ensures { IfOk result (λ packet. packet ≡ bytes) }
    {
        let mut bytes = bytes.into_vec();
        bytes.shrink_to_fit();
        Ok(Packet {
            bytes: ArcSlice::from_vec(bytes)?,
        })
    }

    /// A second handle to the same bytes.
    pub fn share(&self) -> Result<Packet, NoMemory>
        ensures { IfOk result (λ packet. packet ≡ self.now) }
    {
        Ok(Packet {
            bytes: self.bytes.clone()?,
        })
    }

    pub fn as_slice(&self) -> &[u8]
        ensures { result.now ≡ self.now }
    {
        self.bytes.as_slice()
    }
}
