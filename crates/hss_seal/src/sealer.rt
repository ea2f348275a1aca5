ghost use Rattle.std.specs.Prelude.{◌≡◌, ◌≤◌, ◌<◌, ◌*◌, ◌^◌, ◌/◌, ◌%◌, IfOk, IfSome};
ghost use Rattle.lms_seal.specs.Key.{levels_of};
ghost use Rattle.hss_seal.specs.Draws.{drawn_seeds, lower_key, top_of};
ghost use Rattle.hss_seal.specs.Hss.{hss_public, hss_capacity, hss_seal_of, two_levels};
ghost use Rattle.hss_seal.specs.Lower.{kept_of};

use crate::HssSeeds;
use crate::lower::Lower;
use crate::next_tree::NextTree;
use lms_seal::{LmsKey, levels};
use seal_kit::{Height, SealFault, Sealer};
use seq_base::{NoMemory, Seal};
use std::alloc::Global;
use std::marker::Model;

/// The sealer of one replica with two levels. Its seal with a number is of the lower tree that has the leaf of that
/// number, counted over all lower trees. The lower tree in use is kept, and the one after it grows ahead: by at least a
/// leaf with each seal, so that no seal has to wait for a whole tree. A tree that could not grow ahead is grown when it
/// is needed.
pub struct HssSealer {
    alloc: Global,
    seeds: HssSeeds,
    replica: u32,
    lower: Height,
    made: u32,
    top: LmsKey,
    kept: Option<Lower>,
    next: Option<NextTree>,
}

impl Drop for HssSealer {
    fn drop(self) {
        let HssSealer {
            alloc: _,
            seeds: _,
            replica: _,
            lower: _,
            made: _,
            top: _,
            kept: _,
            next: _,
        } = self;
    }
}

impl Model for HssSealer {
    ghost use Rattle.std.specs.Prelude.{◌≡◌, ◌≤◌};
    ghost use Rattle.std.specs.Option.{ForSome};
    ghost use Rattle.hss_seal.specs.Draws.{lower_key, top_of};
    ghost use Rattle.hss_seal.specs.Hss.{TwoLevels, hss_capacity};
    ghost use Rattle.hss_seal.specs.Lower.{kept_of};

    ghost Value = { TwoLevels };

    ghost view = { λ s. record { seeds = s.seeds; replica = s.replica; lower = s.lower; made = s.made } };

    ghost invariant = { λ s. (s.made ≤ hss_capacity s.lower) × (s.top ≡ top_of s.seeds)
        × ForSome s.kept (λ kept. kept ≡ kept_of s.seeds s.lower kept.tree)
        × ForSome s.next (λ next. next.key.key ≡ lower_key s.seeds s.lower next.tree) };
}

impl HssSealer {
    /// Draws what the replica's trees grow from. The lower trees have as many levels as the trees that sign messages at
    /// the height.
    pub fn start(
        alloc: Global,
        seed: u64,
        replica: u32,
        lower: Height,
    ) -> Result<HssSealer, NoMemory>
        ensures { IfOk result (λ s. s ≡ two_levels (drawn_seeds seed replica) lower replica) }
    {
        let seeds = HssSeeds::draw(alloc, seed, replica)?;
        HssSealer::from_seeds(alloc, seeds, replica, lower)
    }

    /// The sealer of a replica whose trees grow from these seeds. Its top tree grows now. No leaf may have been used
    /// before.
    pub(crate) fn from_seeds(
        alloc: Global,
        seeds: HssSeeds,
        replica: u32,
        lower: Height,
    ) -> Result<HssSealer, NoMemory>
        ensures { IfOk result (λ s. s ≡ two_levels seeds lower replica) }
    {
        let top = seeds.top_key(alloc)?;
        Ok(HssSealer {
            alloc,
            seeds,
            replica,
            lower,
            made: 0,
            top,
            kept: None,
            next: None,
        })
    }

    /// The public key, which checks its seals.
    pub fn public(&self) -> [u8; 60]
        ensures { result ≡ hss_public (top_of self.now.seeds) }
    {
        let mut public = [0u8; 60];
        public[..4].copy_from_slice(&2u32.to_be_bytes());
        public[4..].copy_from_slice(&self.top.public());
        public
    }

    /// The lower tree with a number: the one that is kept, otherwise a new one.
    fn lower_tree(&mut self, tree: u32) -> Result<Lower, NoMemory>
        requires { tree < 32 }
        ensures ok { IfOk result (λ lower. lower ≡ kept_of self.old.seeds self.old.lower tree) }
        ensures same { self.new ≡ self.old }
    {
        match self.kept.take() {
            Some(kept) if kept.tree() == tree => Ok(kept),
            _ => self.new_tree(tree),
        }
    }

    /// The lower tree with a number. The top tree signs its public key now.
    fn new_tree(&mut self, tree: u32) -> Result<Lower, NoMemory>
        requires { tree < 32 }
        ensures ok { IfOk result (λ lower. lower ≡ kept_of self.old.seeds self.old.lower tree) }
        ensures same { self.new ≡ self.old }
    {
        let key = self.lower_key(tree)?;
        Lower::new(self.alloc, &self.top, tree, key)
    }

    /// The key of the lower tree with a number: the one that grew ahead, if it is that tree's, otherwise one that grows
    /// now.
    fn lower_key(&mut self, tree: u32) -> Result<LmsKey, NoMemory>
        ensures ok { IfOk result (λ key. key ≡ lower_key self.old.seeds self.old.lower tree) }
        ensures same { self.new ≡ self.old }
    {
        match self.next.take() {
            Some(next) if next.tree == tree => Ok(next.key.finish()),
            _ => self.seeds.lower_key(self.alloc, self.lower, tree),
        }
    }

    /// The seal of the next number. The number is not counted yet.
    fn next_seal(&mut self, bytes: &[u8]) -> Result<Seal, NoMemory>
        requires { self.old.made < hss_capacity self.old.lower }
        ensures ok { IfOk result (λ seal. seal ≡ hss_seal_of self.old.seeds self.old.lower self.old.made bytes.now) }
        ensures same { self.new ≡ self.old }
    {
        let leaves = leaves(self.lower);
        let lower = self.lower_tree(self.made / leaves)?;
        let seal = lower.seal(self.made % leaves, bytes);
        self.kept = Some(lower);
        seal
    }

    /// Grows the tree that follows the one of the next number, if there is one. It is to have as many leaves as the
    /// current tree will have used with that number. So all are there when the current tree is used up, also if growing
    /// starts with its first seal.
    fn grow_ahead(&mut self)
        ensures { self.new ≡ self.old }
    {
        let leaves = leaves(self.lower);
        let tree = self.made / leaves + 1;
        if tree < 32 {
            self.grow_tree(tree, self.made % leaves + 1);
        }
    }

    /// Adds leaves to the tree with a number, which is to have `wanted` leaves. Without memory for that tree nothing
    /// happens: the next seal starts it.
    fn grow_tree(&mut self, tree: u32, wanted: u32)
        ensures { self.new ≡ self.old }
    {
        if let Some(mut next) = self.next_tree(tree) {
            next.add_leaves(wanted);
            self.next = Some(next);
        }
    }

    /// The tree with a number as far as it has grown, or none without memory for it.
    fn next_tree(&mut self, tree: u32) -> Option<NextTree>
        ensures own { IfSome result (λ next. next.key.key ≡ lower_key self.old.seeds self.old.lower next.tree) }
        ensures same { self.new ≡ self.old }
    {
        match self.next.take() {
            Some(next) if next.tree == tree => Some(next),
            _ => NextTree::start(self.alloc, &self.seeds, self.lower, tree).ok(),
        }
    }
}

impl Sealer for HssSealer {
    ghost use Rattle.hss_seal.specs.Hss.{hss_capacity, hss_seal_of};

    ghost made = { λ s. s.made };

    ghost capacity = { λ s. hss_capacity s.lower };

    ghost replica = { λ s. s.replica };

    ghost gives = { λ s number bytes. hss_seal_of s.seeds s.lower number bytes };

    fn seal(&mut self, bytes: &[u8]) -> Result<Seal, SealFault> {
        if self.made == self.capacity() {
            return Err(SealFault::Spent);
        }
        let seal = self.next_seal(bytes)?;
        self.grow_ahead();
        self.made += 1;
        Ok(seal)
    }

    fn made(&self) -> u32 {
        self.made
    }

    fn capacity(&self) -> u32 {
        32 * leaves(self.lower)
    }

    fn replica(&self) -> u32 {
        self.replica
    }
}

/// The number of leaves of each lower tree.
fn leaves(lower: Height) -> u32
    ensures { result ≡ 2 ^ levels_of lower }
{
    1 << levels(lower)
}
