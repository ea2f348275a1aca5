ghost use Rattle.std.specs.Prelude.{◌≡◌, ◌+◌, ◌*◌, ◌^◌, ◌<◌, ◌≤◌, IfOk, length, min};
ghost use Rattle.lms_seal.specs.Growing.{growing_of};

use crate::LmsKey;
use crate::build::join_nodes;
use crate::height::levels;
use crate::tree::{leaf_hash, leaves};
use lm_ots::OtsKey;
use seal_kit::Height;
use seq_base::NoMemory;
use std::alloc::Global;
use std::marker::Model;

/// A key whose tree grows leaf by leaf. A leaf takes about 1,000 hashes, so a caller that needs a large tree later can
/// spread the work. Its memory is reserved at the start, and nothing after that can fail.
#[derive(Drop)]
pub struct GrowingKey {
    alloc: Global,
    id: [u8; 16],
    seed: [u8; 32],
    levels: u32,
    keys: Vec<OtsKey>,
    nodes: Vec<[u8; 32]>,
}

impl Model for GrowingKey {
    ghost use Rattle.std.specs.Prelude.{◌≤◌, ◌^◌, length, vec_capacity};
    ghost use Rattle.lms_seal.specs.Growing.{Growing, HasLeaves};

    ghost Value = { Growing };

    ghost view = { λ g. record { key = record { id = g.id; seed = g.seed; levels = g.levels }; leaves = length g.keys.items } };

    ghost invariant = { λ g. (g.levels ≤ 10) × (2 ^ g.levels ≤ vec_capacity g.keys) × HasLeaves g.id g.seed g.levels g.keys.items g.nodes.items };
}

impl GrowingKey {
    /// Reserves the memory of the whole tree, and computes no leaf. The tree has as many levels as the trees that sign
    /// messages at the height.
    pub fn start(
        alloc: Global,
        id: &[u8; 16],
        seed: &[u8; 32],
        height: Height,
    ) -> Result<GrowingKey, NoMemory>
        ensures { IfOk result (λ g. g ≡ growing_of id.now seed.now height) }
    {
        let levels = levels(height);
        let count = leaves(levels) as usize;
        let keys = Vec::with_capacity(alloc, count)?;
        let nodes = vec![in alloc; [0u8; 32]; 2 * count]?;
        Ok(GrowingKey {
            alloc,
            id: *id,
            seed: *seed,
            levels,
            keys,
            nodes,
        })
    }

    /// The number of leaves so far.
    pub fn leaves(&self) -> u32
        ensures value { result ≡ self.now.leaves }
        ensures few { self.now.leaves ≤ 2 ^ self.now.key.levels }
    {
        self.keys.len() as u32
    }

    /// Computes the next leaf, unless all are there.
    pub fn add_leaf(&mut self)
        ensures key { self.new.key ≡ self.old.key }
        ensures leaves { self.new.leaves ≡ min (self.old.leaves + 1) (2 ^ self.old.key.levels) }
    {
        let leaf = self.leaves();
        if leaf < leaves(self.levels) {
            self.put_leaf(leaf);
        }
    }

    /// Computes the leaves that are left, and the nodes above the leaves.
    pub fn finish(mut self) -> LmsKey
        ensures { result ≡ self.key }
    {
        self.add_leaves();
        self.into_key()
    }

    /// Computes the leaf that follows those so far.
    fn put_leaf(&mut self, leaf: u32)
        requires next { leaf ≡ self.old.leaves }
        requires within { leaf < 2 ^ self.old.key.levels }
        ensures key { self.new.key ≡ self.old.key }
        ensures leaves { self.new.leaves ≡ leaf + 1 }
    {
        let node = leaves(self.levels) + leaf;
        let key = OtsKey::new(&self.id, leaf, &self.seed);
        self.nodes[node as usize] = leaf_hash(&self.id, node, &key.public());
        self.keys.push(key).unwrap();
    }

    fn add_leaves(&mut self)
        ensures key { self.new.key ≡ self.old.key }
        ensures leaves { self.new.leaves ≡ 2 ^ self.old.key.levels }
    {
        let first = self.leaves();
        for leaf in first..leaves(self.levels) {
            self.put_leaf(leaf);
        }
    }

    /// The key of a tree that has all its leaves. The nodes above them are computed now.
    fn into_key(self) -> LmsKey
        requires { self.leaves ≡ 2 ^ self.key.levels }
        ensures { result ≡ self.key }
    {
        let GrowingKey {
            alloc,
            id,
            seed,
            levels,
            keys,
            mut nodes,
        } = self;
        join_nodes(&id, levels, nodes.as_mut_slice());
        LmsKey::from_tree(alloc, id, seed, levels, keys, nodes)
    }
}
