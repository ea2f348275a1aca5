ghost use Rattle.std.specs.Prelude.{◌≡◌, ◌≤◌, ◌^◌, IfOk};
ghost use Rattle.lms_seal.specs.Key.{key_public, one_tree};
ghost use Rattle.lms_seal.specs.Draws as draws;

use crate::LmsKey;
use crate::draws::drawn_key;
use seal_kit::{Height, SealFault, Sealer};
use seq_base::{NoMemory, Seal};
use std::alloc::Global;
use std::marker::Model;

/// The sealer of one replica with one tree. Its seal with a number is the signature with the leaf of that number.
pub struct LmsSealer {
    key: LmsKey,
    replica: u32,
    made: u32,
}

impl Drop for LmsSealer {
    fn drop(self) {
        let LmsSealer {
            key: _,
            replica: _,
            made: _,
        } = self;
    }
}

impl Model for LmsSealer {
    ghost use Rattle.std.specs.Prelude.{◌≤◌, ◌^◌};
    ghost use Rattle.lms_seal.specs.Key.{OneTree};

    ghost Value = { OneTree };

    ghost view = { λ s. record { key = s.key; replica = s.replica; made = s.made } };

    ghost invariant = { λ s. s.made ≤ 2 ^ s.key.levels };
}

impl LmsSealer {
    /// Draws the replica's key, and grows its tree. The tree has as many levels as the trees that sign messages at the
    /// height.
    pub fn start(
        alloc: Global,
        seed: u64,
        replica: u32,
        height: Height,
    ) -> Result<LmsSealer, NoMemory>
        ensures { IfOk result (λ s. s ≡ one_tree (draws.drawn_key seed replica height) replica) }
    {
        let key = drawn_key(alloc, seed, replica, height)?;
        Ok(LmsSealer::from_key(key, replica))
    }

    /// The sealer of a replica with this key. No leaf of the key may have been used before.
    pub fn from_key(key: LmsKey, replica: u32) -> LmsSealer
        ensures { result ≡ one_tree key replica }
    {
        LmsSealer {
            key,
            replica,
            made: 0,
        }
    }

    /// The public key, which checks its seals.
    pub fn public(&self) -> [u8; 56]
        ensures { result ≡ key_public self.now.key }
    {
        self.key.public()
    }
}

impl Sealer for LmsSealer {
    ghost use Rattle.std.specs.Prelude.{◌^◌};
    ghost use Rattle.lms_seal.specs.Key.{key_seal};

    ghost made = { λ s. s.made };

    ghost capacity = { λ s. 2 ^ s.key.levels };

    ghost replica = { λ s. s.replica };

    ghost gives = { λ s number bytes. key_seal s.key number bytes };

    fn seal(&mut self, bytes: &[u8]) -> Result<Seal, SealFault> {
        if self.made == self.key.leaves() {
            return Err(SealFault::Spent);
        }
        let seal = self.key.sign(self.made, bytes)?;
        self.made += 1;
        Ok(seal)
    }

    fn made(&self) -> u32 {
        self.made
    }

    fn capacity(&self) -> u32 {
        self.key.leaves()
    }

    fn replica(&self) -> u32 {
        self.replica
    }
}
