//! Heads of seals that were checked. A head is the bytes of a seal before the lower tree's signature: all seals of one
//! lower tree have the same.
ghost use Rattle.std.specs.Prelude.{◌≡◌, ◌≤◌, IfOk, IfSome, length, true};
ghost use Rattle.hss_seal.specs.Heads as spec;

use crate::verify::{SECOND_AT, head_fits};
use seq_base::NoMemory;
use std::alloc::Global;
use std::marker::Model;

/// How many leaves a top tree has. Each signs the key of one lower tree.
const LEAVES: usize = 32;

/// The heads that are known to fit: the last one of each replica and each leaf of its top tree.
pub(crate) struct KnownHeads {
    alloc: Global,
    /// The head of a replica's leaf has the place 32 · replica + leaf.
    heads: Vec<Option<KnownHead>>,
}

impl Drop for KnownHeads {
    fn drop(self) {
        let KnownHeads { alloc: _, heads: _ } = self;
    }
}

impl KnownHeads {
    /// No head is known. There is room for those of this many replicas.
    pub(crate) fn new(alloc: Global, replicas: usize) -> Result<KnownHeads, NoMemory> {
        let mut heads = Vec::new(alloc);
        for _ in 0..replicas.saturating_mul(LEAVES) {
            heads.push(None)?;
        }
        Ok(KnownHeads { alloc, heads })
    }

    /// Whether a seal's head is known to fit under this key of a replica.
    pub(crate) fn has(&self, replica: u32, public: &[u8; 60], seal: &[u8]) -> bool
        ensures whole { result ≡ true → SECOND_AT ≤ length seal.now }
        ensures fits { result ≡ true → spec.head_fits public.now seal.now ≡ true }
    {
        match place_of(replica, seal) {
            Some(place) => self.has_at(place, public, seal),
            None => false,
        }
    }

    fn has_at(&self, place: usize, public: &[u8; 60], seal: &[u8]) -> bool
        requires { SECOND_AT ≤ length seal.now }
        ensures { result ≡ true → spec.head_fits public.now seal.now ≡ true }
    {
        match self.heads.get(place) {
            Some(Some(known)) => known.is_of(public, seal),
            _ => false,
        }
    }

    /// Remembers a seal's head if it fits under this key of a replica, and returns whether it is known now. It replaces
    /// the head that was known of the same leaf.
    pub(crate) fn learn(
        &mut self,
        replica: u32,
        public: &[u8; 60],
        seal: &[u8],
    ) -> Result<bool, NoMemory> {
        match place_of(replica, seal) {
            Some(place) if self.has_at(place, public, seal) => Ok(true),
            Some(place) => self.learn_at(place, public, seal),
            None => Ok(false),
        }
    }

    fn learn_at(&mut self, place: usize, public: &[u8; 60], seal: &[u8]) -> Result<bool, NoMemory>
        requires { SECOND_AT ≤ length seal.now }
    {
        let Some(known) = KnownHead::check(self.alloc, public, seal)? else {
            return Ok(false);
        };
        match self.heads.get_mut(place) {
            Some(slot) => {
                *slot = Some(known);
                Ok(true)
            },
            None => Ok(false),
        }
    }
}

/// Where the head of a seal is remembered, if it is whole and its leaf is one of a top tree.
fn place_of(replica: u32, seal: &[u8]) -> Option<usize>
    ensures { IfSome result (λ place. SECOND_AT ≤ length seal.now) }
{
    if seal.len() < SECOND_AT {
        return None;
    }
    let leaf = u32::from_be_bytes([seal[4], seal[5], seal[6], seal[7]]) as usize;
    if leaf < LEAVES {
        Some(replica as usize * LEAVES + leaf)
    } else {
        None
    }
}

/// A head that was checked, with the public key under which it fits.
struct KnownHead {
    public: [u8; 60],
    bytes: Vec<u8>,
}

impl Drop for KnownHead {
    fn drop(self) {
        let KnownHead {
            public: _,
            bytes: _,
        } = self;
    }
}

impl Model for KnownHead {
    ghost use Rattle.hss_seal.specs.Heads.{Head, IsGood};

    ghost Value = { Head };

    ghost view = { λ h. record { public = h.public; bytes = h.bytes.items } };

    ghost invariant = { λ h. IsGood (record { public = h.public; bytes = h.bytes.items }) };
}

impl KnownHead {
    /// The head of a seal, if it fits under a public key.
    fn check(alloc: Global, public: &[u8; 60], seal: &[u8]) -> Result<Option<KnownHead>, NoMemory>
        requires { SECOND_AT ≤ length seal.now }
    {
        let head = &seal[..SECOND_AT];
        if !head_fits(public, head) {
            return Ok(None);
        }
        Ok(Some(KnownHead::remember(alloc, public, head)?))
    }

    /// A head that was checked.
    fn remember(alloc: Global, public: &[u8; 60], head: &[u8]) -> Result<KnownHead, NoMemory>
        requires whole { length head.now ≡ SECOND_AT }
        requires fits { spec.head_fits public.now head.now ≡ true }
    {
        let bytes = Vec::from_slice(alloc, head)?;
        Ok(KnownHead {
            public: *public,
            bytes,
        })
    }

    /// Whether it is the head of a seal, under the same public key.
    #[tactic(auto, using(crate::proofs::HeadsFit::head_decides))]
    fn is_of(&self, public: &[u8; 60], seal: &[u8]) -> bool
        requires { SECOND_AT ≤ length seal.now }
        ensures { result ≡ true → spec.head_fits public.now seal.now ≡ true }
    {
        are_same(self.public.as_slice(), public.as_slice())
            && are_same(self.bytes.as_slice(), &seal[..SECOND_AT])
    }
}

fn are_same(one: &[u8], other: &[u8]) -> bool
    ensures { result ≡ true → one.now ≡ other.now }
{
    one == other
}
