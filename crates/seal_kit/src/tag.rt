ghost use Rattle.std.specs.Prelude.{◌≡◌, ◌<◌, ◌≤◌};
ghost use Rattle.seal_kit.specs.Tags.{tag};

use crate::{Checker, Height, Kit, SealFault, SealMaker, Sealer};
use seq_base::{NoMemory, Seal};
use sha2::{Digest, Sha256};
use std::alloc::Global;
use std::marker::Model;

/// Seals by a digest that anyone can compute.
#[derive(Drop)]
pub struct TagSealer {
    alloc: Global,
    replica: u32,
    made: u32,
    capacity: u32,
}

impl Model for TagSealer {
    ghost use Rattle.std.specs.Prelude.{◌<◌, ◌≤◌};
    ghost use Rattle.seal_kit.specs.Seals.{Counter};

    ghost Value = { Counter };

    ghost view = { λ s. record { replica = s.replica; made = s.made; capacity = s.capacity } };

    ghost invariant = { λ s. (s.replica < 256) × (s.made ≤ s.capacity) };
}

/// The SHA-256 digest of one byte for the replica, followed by the bytes.
fn tag_of(replica: u32, bytes: &[u8]) -> [u8; 32]
    requires { replica < 256 }
    ensures { result ≡ tag replica bytes.now }
{
    let mut hasher = Sha256::new();
    hasher.update(&[replica as u8]);
    hasher.update(bytes);
    hasher.finalize()
}

impl Sealer for TagSealer {
    ghost use Rattle.seal_kit.specs.Tags.{tag};

    ghost made = { λ s. s.made };

    ghost capacity = { λ s. s.capacity };

    ghost replica = { λ s. s.replica };

    ghost gives = { λ s number bytes. tag s.replica bytes };

    fn seal(&mut self, bytes: &[u8]) -> Result<Seal, SealFault> {
        if self.made == self.capacity {
            return Err(SealFault::Spent);
        }
        let digest = tag_of(self.replica, bytes);
        self.made += 1;
        match Vec::from_array(self.alloc, digest) {
            Ok(items) => Ok(Seal::of(items)),
            Err(_) => Err(SealFault::NoMemory),
        }
    }

    fn made(&self) -> u32 {
        self.made
    }

    fn capacity(&self) -> u32 {
        self.capacity
    }

    fn replica(&self) -> u32 {
        self.replica
    }
}

/// Checks the tags of n replicas.
#[derive(Drop)]
pub struct TagChecker {
    n: u32,
}

impl Checker for TagChecker {
    ghost use Rattle.seal_kit.specs.Tags.{tag_fits};

    ghost meaning = { λ c replica bytes seal. tag_fits c.n replica bytes seal };

    fn fits(&self, replica: u32, bytes: &[u8], seal: &[u8]) -> bool {
        if replica >= self.n || replica >= 256 {
            return false;
        }
        let digest = tag_of(replica, bytes);
        seal == digest.as_slice()
    }
}

/// Makes sealers by digests.
#[derive(Drop)]
pub struct TagMaker {
    alloc: Global,
}

impl TagMaker {
    /// Takes no memory: the allocator is stored for what is made later.
    pub fn new(alloc: Global) -> TagMaker {
        TagMaker { alloc }
    }
}

impl SealMaker for TagMaker {
    type S = TagSealer;

    type C = TagChecker;

    ghost use Rattle.seal_kit.specs.Tags.{tag, tag_fits};

    ghost fits = { λ _ seed height n replica bytes seal. tag_fits n replica bytes seal };

    ghost gives = { λ _ seed height n replica number bytes. tag replica bytes };

    fn make(&self, _: u64, height: Height, n: u32) -> Result<Kit<TagSealer, TagChecker>, NoMemory> {
        let capacity = height.capacity();
        let mut sealers = Vec::new(self.alloc);
        for replica in 0..n {
            sealers.push(TagSealer {
                alloc: self.alloc,
                replica,
                made: 0,
                capacity,
            })?;
        }
        Ok(Kit {
            sealers,
            checker: TagChecker { n },
        })
    }
}
