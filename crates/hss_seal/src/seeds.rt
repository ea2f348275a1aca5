ghost use Rattle.std.specs.Prelude.{◌≡◌, ◌++◌, IfOk};
ghost use Rattle.hss_seal.specs.Draws.{drawn_seeds, seeds_of, top_of};
ghost use Rattle.hss_seal.specs.Draws as spec;

use lms_seal::{GrowingKey, LmsKey, drawn_id, drawn_seed, prefix};
use seal_kit::Height;
use seq_base::NoMemory;
use sha2::{Digest, Sha256};
use std::alloc::Global;
use std::marker::Model;

/// What the trees of a two-level key grow from. All of it but the identifier is secret.
pub struct HssSeeds {
    id: [u8; 16],
    seed: [u8; 32],
    lower: Vec<u8>,
}

impl Drop for HssSeeds {
    fn drop(self) {
        let HssSeeds {
            id: _,
            seed: _,
            lower: _,
        } = self;
    }
}

impl Model for HssSeeds {
    ghost use Rattle.hss_seal.specs.Draws.{Seeds};

    ghost Value = { Seeds };

    ghost view = { λ s. record { id = s.id; seed = s.seed; lower = s.lower.items } };
}

impl HssSeeds {
    /// Those of 48 random bytes: the identifier and the seed of the top tree. The lower trees are derived from both.
    pub fn from_bytes(alloc: Global, id: &[u8; 16], seed: &[u8; 32]) -> Result<HssSeeds, NoMemory>
        ensures { IfOk result (λ seeds. seeds ≡ seeds_of id.now seed.now) }
    {
        let lower = joined(alloc, id, seed)?;
        Ok(HssSeeds {
            id: *id,
            seed: *seed,
            lower,
        })
    }

    /// Those that are drawn for a replica from one seed for all replicas.
    pub(crate) fn draw(alloc: Global, seed: u64, replica: u32) -> Result<HssSeeds, NoMemory>
        ensures { IfOk result (λ seeds. seeds ≡ drawn_seeds seed replica) }
    {
        let lower = joined(alloc, &seed.to_be_bytes(), &replica.to_be_bytes())?;
        Ok(HssSeeds {
            id: drawn_id(seed, replica),
            seed: drawn_seed(seed, replica),
            lower,
        })
    }

    /// The key of the top tree, which grows here.
    pub(crate) fn top_key(&self, alloc: Global) -> Result<LmsKey, NoMemory>
        ensures { IfOk result (λ key. key ≡ top_of self.now) }
    {
        LmsKey::new(alloc, &self.id, &self.seed, Height::H5)
    }

    /// The key of the lower tree with a number, which grows here.
    pub(crate) fn lower_key(
        &self,
        alloc: Global,
        height: Height,
        tree: u32,
    ) -> Result<LmsKey, NoMemory>
        ensures { IfOk result (λ key. key ≡ spec.lower_key self.now height tree) }
    {
        let growing = self.growing_key(alloc, height, tree)?;
        Ok(growing.finish())
    }

    /// That key before it grows.
    pub(crate) fn growing_key(
        &self,
        alloc: Global,
        height: Height,
        tree: u32,
    ) -> Result<GrowingKey, NoMemory>
        ensures { IfOk result (λ growing. growing ≡ record { key = spec.lower_key self.now height tree; leaves = 0 }) }
    {
        let id = prefix(&lower_hash(b"themis-hss-id", self.lower.as_slice(), tree));
        let seed = lower_hash(b"themis-hss-seed", self.lower.as_slice(), tree);
        GrowingKey::start(alloc, &id, &seed, height)
    }
}

fn joined(alloc: Global, first: &[u8], second: &[u8]) -> Result<Vec<u8>, NoMemory>
    ensures { IfOk result (λ both. both.items ≡ first.now ++ second.now) }
{
    let mut both = Vec::from_slice(alloc, first)?;
    both.extend_from_slice(second)?;
    Ok(both)
}

fn lower_hash(word: &[u8], bytes: &[u8], tree: u32) -> [u8; 32]
    ensures { result ≡ spec.lower_hash word.now bytes.now tree }
{
    let mut hasher = Sha256::new();
    hasher.update(word);
    hasher.update(bytes);
    hasher.update(tree.to_be_bytes());
    hasher.finalize()
}
