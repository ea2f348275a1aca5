ghost use Rattle.std.specs.Prelude.{◌≡◌, ◌<◌, ◌≤◌};
ghost use Rattle.lm_ots.specs.Ots.{ots_public_of, digits_of, random_of, signed_parts, middles_of};
ghost use Rattle.lm_ots.specs.Chain.{chain_of, private_part};

use crate::chains::{begun, chain, private};
use crate::digits::half_byte;
use crate::ots::{CHAINS, D_PBLK, D_RANDOM, OtsSignature, digits};
use sha2::Digest;
use std::marker::Model;

/// The position of the cached value in each chain.
const MIDDLE: u8 = 8;

/// A leaf's key, with each of its chains cached at its middle. The public value and a signature continue from there.
/// Only a position before the middle is computed from the private part.
#[derive(Drop)]
pub struct OtsKey {
    id: [u8; 16],
    leaf: u32,
    seed: [u8; 32],
    middles: [[u8; 32]; 67],
    ghost walked: { middles ≡ middles_of id leaf seed },
}

impl Model for OtsKey {
    ghost use Rattle.lm_ots.specs.Ots.{LeafKey};

    ghost Value = { LeafKey };

    ghost view = { λ k. record { id = k.id; leaf = k.leaf; seed = k.seed } };
}

impl OtsKey {
    /// Computes each chain up to its middle.
    pub fn new(id: &[u8; 16], leaf: u32, seed: &[u8; 32]) -> OtsKey
        ensures { result ≡ record { id = id.now; leaf = leaf; seed = seed.now } }
    {
        OtsKey {
            id: *id,
            leaf,
            seed: *seed,
            middles: middles(id, leaf, seed),
        }
    }

    /// The public value.
    pub fn public(&self) -> [u8; 32]
        ensures { result ≡ ots_public_of self.now.id self.now.leaf self.now.seed }
    {
        let mut hasher = begun(&self.id, self.leaf, D_PBLK);
        for index in 0..67u16 {
            let end = self.chain_at(index, 15);
            hasher.update(end);
        }
        hasher.finalize()
    }

    /// Signs a message. The leaf must be used for nothing else.
    pub fn sign(&self, message: &[u8]) -> OtsSignature
        ensures random { result.random ≡ random_of self.now.id self.now.leaf self.now.seed }
        ensures parts { result.parts ≡ signed_parts self.now.id self.now.leaf self.now.seed (digits_of self.now.id self.now.leaf result.random message.now) }
    {
        let random = private(&self.id, self.leaf, D_RANDOM, &self.seed);
        let digits = digits(&self.id, self.leaf, &random, message);
        let mut parts = [[0u8; 32]; 67];
        for index in 0..67u16 {
            let digit = half_byte(&digits, usize::from(index));
            parts[usize::from(index)] = self.chain_at(index, digit);
        }
        OtsSignature { random, parts }
    }

    /// The chain at a position, computed from its middle unless that is past the position.
    fn chain_at(&self, index: u16, place: u8) -> [u8; 32]
        requires within { index < 67 }
        requires place { place ≤ 15 }
        ensures { result ≡ chain_of self.now.id self.now.leaf index 0 place (private_part self.now.id self.now.leaf index self.now.seed) }
    {
        if place < MIDDLE {
            let start = private(&self.id, self.leaf, index, &self.seed);
            chain(&self.id, self.leaf, index, 0, place, &start)
        } else {
            let middle = &self.middles[usize::from(index)];
            chain(&self.id, self.leaf, index, MIDDLE, place, middle)
        }
    }
}

/// Each chain at its middle.
fn middles(id: &[u8; 16], leaf: u32, seed: &[u8; 32]) -> [[u8; 32]; CHAINS]
    ensures { result ≡ middles_of id.now leaf seed.now }
{
    let mut middles = [[0u8; 32]; 67];
    for index in 0..67u16 {
        let start = private(id, leaf, index, seed);
        middles[usize::from(index)] = chain(id, leaf, index, 0, MIDDLE, &start);
    }
    middles
}
