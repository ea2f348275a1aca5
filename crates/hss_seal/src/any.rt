ghost use Rattle.std.specs.Prelude.{◌≡◌, ◌++◌, IfOk, drop, map};
ghost use Rattle.std.specs.Int.{w32, to_be_bytes};
ghost use Rattle.hss_seal.specs.Any.{any_capacity, any_made, any_meaning, any_public, any_publics_fit, any_replica, any_sealer};
ghost use Rattle.seal_kit.specs.Seals.{capacity_of};

use crate::{HssChecker, HssSealer, HssSeeds};
use lms_seal::{LmsChecker, LmsKey, LmsSealer};
use seal_kit::{Checker, Height, SealFault, Sealer};
use seq_base::{NoMemory, Seal};
use std::alloc::Global;

/// A sealer with one tree or with two-level HSS.
pub enum AnySealer {
    One(LmsSealer),
    Two(HssSealer),
}

impl Drop for AnySealer {
    fn drop(self) {
        match self {
            AnySealer::One(_) => {}
            AnySealer::Two(_) => {}
        }
    }
}

impl AnySealer {
    /// The sealer of a replica whose key grows from 48 random bytes: an identifier, which its public key and its seals
    /// show, and a secret seed. No leaf of the key may have been used before.
    pub fn from_bytes(
        alloc: Global,
        id: &[u8; 16],
        seed: &[u8; 32],
        height: Height,
        replica: u32,
    ) -> Result<AnySealer, NoMemory>
        ensures sealer { IfOk result (λ sealer. sealer ≡ any_sealer id.now seed.now height replica) }
        ensures replica { IfOk result (λ sealer. any_replica sealer ≡ replica) }
        ensures fresh { IfOk result (λ sealer. any_made sealer ≡ 0) }
        ensures room { IfOk result (λ sealer. any_capacity sealer ≡ capacity_of height) }
    {
        match height {
            Height::H5 | Height::H10 => {
                let key = LmsKey::new(alloc, id, seed, height)?;
                Ok(AnySealer::One(LmsSealer::from_key(key, replica)))
            },
            Height::H5H5 | Height::H5H10 => {
                let seeds = HssSeeds::from_bytes(alloc, id, seed)?;
                Ok(AnySealer::Two(HssSealer::from_seeds(alloc, seeds, replica, height)?))
            },
        }
    }

    /// The public key, which checks its seals: the number of levels, and the public key of its tree, or of its top
    /// tree.
    pub fn public(&self) -> [u8; 60]
        ensures { result ≡ any_public self.now }
    {
        match self {
            AnySealer::One(sealer) => one_public(&sealer.public()),
            AnySealer::Two(sealer) => sealer.public(),
        }
    }
}

/// The public key with one level, as RFC 8554 has it.
fn one_public(tree: &[u8; 56]) -> [u8; 60]
    ensures { result ≡ to_be_bytes w32 1 ++ tree.now }
{
    let mut public = [0u8; 60];
    public[..4].copy_from_slice(&1u32.to_be_bytes());
    public[4..].copy_from_slice(tree);
    public
}

impl Sealer for AnySealer {
    ghost use Rattle.hss_seal.specs.Any.{any_made, any_capacity, any_replica, any_gives};

    ghost made = { any_made };

    ghost capacity = { any_capacity };

    ghost replica = { any_replica };

    ghost gives = { any_gives };

    fn seal(&mut self, bytes: &[u8]) -> Result<Seal, SealFault> {
        match self {
            AnySealer::One(sealer) => sealer.seal(bytes),
            AnySealer::Two(sealer) => sealer.seal(bytes),
        }
    }

    fn made(&self) -> u32 {
        match self {
            AnySealer::One(sealer) => sealer.made(),
            AnySealer::Two(sealer) => sealer.made(),
        }
    }

    fn capacity(&self) -> u32 {
        match self {
            AnySealer::One(sealer) => sealer.capacity(),
            AnySealer::Two(sealer) => sealer.capacity(),
        }
    }

    fn replica(&self) -> u32 {
        match self {
            AnySealer::One(sealer) => sealer.replica(),
            AnySealer::Two(sealer) => sealer.replica(),
        }
    }
}

/// A checker of seals with one tree or with two-level HSS.
pub enum AnyChecker {
    One(LmsChecker),
    Two(HssChecker),
}

impl Drop for AnyChecker {
    fn drop(self) {
        match self {
            AnyChecker::One(_) => {}
            AnyChecker::Two(_) => {}
        }
    }
}

impl AnyChecker {
    /// Checks by the public keys of all replicas: key number i is that of replica i, as [`AnySealer::public`] returns
    /// it.
    pub fn from_publics(
        alloc: Global,
        height: Height,
        publics: &[[u8; 60]],
    ) -> Result<AnyChecker, NoMemory>
        ensures { IfOk result (λ checker. any_meaning checker ≡ any_publics_fit height publics.now) }
    {
        match height {
            Height::H5 | Height::H10 => {
                let keys = tree_keys(alloc, publics)?;
                Ok(AnyChecker::One(LmsChecker::of(alloc, keys.as_slice())?))
            },
            Height::H5H5 | Height::H5H10 => Ok(AnyChecker::Two(HssChecker::of(alloc, publics)?)),
        }
    }

    /// Remembers what the seals of a replica's lower tree have in common, if it fits, and returns whether it is known now:
    /// [`HssChecker::learn`]. A checker of seals with one tree has nothing to learn.
    pub fn learn(&mut self, replica: u32, seal: &[u8]) -> bool
        ensures { self.new ≡ self.old }
    {
        match self {
            AnyChecker::One(_) => true,
            AnyChecker::Two(checker) => checker.learn(replica, seal),
        }
    }
}

/// The keys of trees, which follow the number of levels in public keys.
fn tree_keys(alloc: Global, publics: &[[u8; 60]]) -> Result<Vec<[u8; 56]>, NoMemory>
    ensures { IfOk result (λ keys. keys.items ≡ map (drop 4) publics.now) }
{
    let mut keys = Vec::new(alloc);
    for public in publics {
        keys.push(tree_key(public))?;
    }
    Ok(keys)
}

fn tree_key(public: &[u8; 60]) -> [u8; 56]
    ensures { result ≡ drop 4 public.now }
{
    let mut key = [0u8; 56];
    key.copy_from_slice(&public[4..]);
    key
}

impl Checker for AnyChecker {
    ghost use Rattle.hss_seal.specs.Any.{any_meaning};

    ghost meaning = { any_meaning };

    fn fits(&self, replica: u32, bytes: &[u8], seal: &[u8]) -> bool {
        match self {
            AnyChecker::One(checker) => checker.fits(replica, bytes, seal),
            AnyChecker::Two(checker) => checker.fits(replica, bytes, seal),
        }
    }
}
