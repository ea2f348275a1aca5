ghost use Rattle.std.specs.Prelude.{◌≡◌, ◌+◌, ◌^◌, ◌≤◌, IfOk, min};
ghost use Rattle.hss_seal.specs.Draws.{lower_key};

use crate::HssSeeds;
use lms_seal::GrowingKey;
use seal_kit::Height;
use seq_base::NoMemory;
use std::alloc::Global;

/// The lower tree that grows while the tree before it is in use: its number, and its key as far as it has grown.
#[derive(Drop)]
pub(crate) struct NextTree {
    pub(crate) tree: u32,
    pub(crate) key: GrowingKey,
}

impl NextTree {
    /// Lower tree `tree`, without leaves.
    pub(crate) fn start(
        alloc: Global,
        seeds: &HssSeeds,
        height: Height,
        tree: u32,
    ) -> Result<NextTree, NoMemory>
        ensures number { IfOk result (λ next. next.tree ≡ tree) }
        ensures key { IfOk result (λ next. next.key.key ≡ lower_key seeds.now height next.tree) }
    {
        let key = seeds.growing_key(alloc, height, tree)?;
        Ok(NextTree { tree, key })
    }

    /// Adds a leaf, and another one if there are fewer than `wanted`: a tree that started late catches up, and no call
    /// takes longer than two leaves do.
    pub(crate) fn add_leaves(&mut self, wanted: u32)
        ensures tree { self.new.tree ≡ self.old.tree }
        ensures key { self.new.key.key ≡ self.old.key.key }
        ensures more { min (self.old.key.leaves + 1) (2 ^ self.old.key.key.levels) ≤ self.new.key.leaves }
    {
        self.key.add_leaf();
        if self.key.leaves() < wanted {
            self.key.add_leaf();
        }
    }
}
