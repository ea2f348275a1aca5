ghost use mathlib.Core.List.{reverse};
ghost use Rattle.std.specs.Prelude.{◌≡◌, ◌≢◌, [], Option, length, slice_get, IfSome, IfOk, OnOk, OnErr, false, true, Err};
ghost use Rattle.seq_base.specs.Limits.{IsWithin};
ghost use Rattle.block_store.specs.Chains.{parent_of, extends, reaches, chain_of};
ghost use Rattle.block_store.specs.Entries.{IsStore};
ghost use Rattle.block_store.specs.Store.{block_digest, block_at, is_stored, clashes, view_of, shown, with_block, put_answer};

use crate::StoreFault;
use indexmap::IndexMap;
use seq_base::{Block, Digest, NoMemory};
use std::alloc::Global;
use std::marker::Model;
use wire_write::{digest, write_block};

/// Stored blocks. The first block, which has no bytes and whose digest is 32 zero bytes, is always stored.
pub struct BlockStore {
    alloc: Global,
    blocks: IndexMap<Digest, Block>,
}

impl Drop for BlockStore {
    fn drop(self) {
        let BlockStore {
            alloc: _,
            blocks: _,
        } = self;
    }
}

impl Model for BlockStore {
    ghost use Rattle.std.specs.Prelude.{List};
    ghost use Rattle.seq_base.specs.declared.block.Block.{Block};
    ghost use Rattle.block_store.specs.Entries.{blocks_of, AreKept};

    ghost Value = { List Block };

    ghost view = { λ s. blocks_of s.blocks.entries };

    ghost invariant = { λ s. AreKept s.blocks.entries };
}

impl BlockStore {
    /// Allocates nothing.
    pub fn new(alloc: Global) -> BlockStore
        ensures { result ≡ [] }
    {
        BlockStore {
            alloc,
            blocks: IndexMap::new(alloc),
        }
    }

    /// States that this store meets the invariant `IsStore`. The call has no effect.
    pub fn keeps_its_rules(&self)
        ensures { IsStore self.now }
    {
        let _blocks = &self.blocks;
    }

    /// The block of a digest, or None where it is not stored or is the first block.
    pub fn get(&self, block: &Digest) -> Option<&Block>
        ensures value { shown result ≡ block_at self.now block.now }
        ensures within { IfSome result (λ b. IsWithin b.now) }
    {
        self.blocks.get(block)
    }

    /// Whether a block of this digest is stored.
    pub fn is_stored(&self, block: &Digest) -> bool
        ensures { result ≡ is_stored self.now block.now }
    {
        *block == Digest::FIRST || self.get(block).is_some()
    }

    /// The number of stored blocks, without the first block. It allocates nothing.
    pub fn len(&self) -> usize
        ensures { result ≡ length self.now }
    {
        self.blocks.len()
    }

    /// The block at a place in the order in which the blocks were stored, or None at or past the length. The block
    /// stored first, a child of the first block, is at place 0. A place never changes. It allocates nothing.
    pub fn at(&self, place: usize) -> Option<&Block>
        ensures value { shown result ≡ slice_get self.now place }
        ensures within { IfSome result (λ b. IsWithin b.now) }
    {
        match self.blocks.get_index(place) {
            Some((_, block)) => Some(block),
            None => None,
        }
    }

    /// The view of a stored block.
    pub fn view_of(&self, block: &Digest) -> Option<u32>
        ensures { result ≡ view_of self.now block.now }
    {
        if *block == Digest::FIRST {
            return Some(0);
        }
        match self.get(block) {
            None => None,
            Some(stored) => Some(stored.view),
        }
    }

    /// The parent of a stored block. None: it is the first block, or is not stored.
    pub fn parent(&self, block: &Digest) -> Option<Digest>
        ensures { result ≡ parent_of self.now block.now }
    {
        match self.get(block) {
            None => None,
            Some(stored) => Some(stored.cert.block),
        }
    }

    /// Whether the digest is that of the first block, or another block than this one is stored under it.
    pub fn clashes(&self, digest: &Digest, block: &Block) -> bool
        ensures { result ≡ clashes self.now digest.now block.now }
    {
        if *digest == Digest::FIRST {
            return true;
        }
        match self.get(digest) {
            None => false,
            Some(stored) => *stored != *block,
        }
    }

    /// Stores the block and returns its digest. A block that is already stored changes nothing. `Orphan`: its parent is not
    /// stored. `Clash`: another block has its digest. After any fault the store is as before.
    pub fn put(&mut self, block: Block) -> Result<Digest, StoreFault>
        requires { IsWithin block }
        ensures answer { result ≢ Err StoreFault.NoMemory → result ≡ put_answer self.old block }
        ensures ok { OnOk result (self.new ≡ with_block block self.old) }
        ensures err { OnErr result (self.new ≡ self.old) }
    {
        let parent = block.cert.block;
        if !self.is_stored(&parent) {
            return Err(StoreFault::Orphan { parent });
        }
        let digest = digest_of(self.alloc, &block)?;
        if self.clashes(&digest, &block) {
            return Err(StoreFault::Clash { digest });
        }
        self.insert(digest, block)?;
        Ok(digest)
    }

    /// Stores the block under its digest, which the caller has computed from the block's bytes.
    pub fn insert(&mut self, digest: Digest, block: Block) -> Result<(), NoMemory>
        requires within { IsWithin block }
        requires own { digest ≡ block_digest block }
        requires parent { is_stored self.old block.cert.block ≡ true }
        requires alone { clashes self.old digest block ≡ false }
        ensures ok { OnOk result (self.new ≡ with_block block self.old) }
        ensures err { OnErr result (self.new ≡ self.old) }
    {
        self.blocks.insert(digest, block)?;
        Ok(())
    }

    /// Whether parent steps, zero or more, lead from the child to the ancestor. A child that is not stored extends
    /// nothing.
    pub fn extends(&self, child: &Digest, ancestor: &Digest) -> bool
        ensures { result ≡ extends self.now child.now ancestor.now }
    {
        self.is_stored(child) && self.reaches(child, ancestor)
    }

    #[tactic(auto, using(crate::proofs::Steps::reaches_more))]
    fn reaches(&self, from: &Digest, to: &Digest) -> bool
        ensures { result ≡ reaches (length self.now) self.now from.now to.now }
    {
        let mut at = *from;
        for _step in 0..self.len() {
            if at == *to {
                return true;
            }
            match self.parent(&at) {
                None => return false,
                Some(parent) => at = parent,
            }
        }
        at == *to
    }

    /// The digests from the first block's child to a stored block. There are none where it is the first block or is not
    /// stored.
    pub fn chain(&self, block: &Digest) -> Result<Vec<Digest>, NoMemory>
        ensures { IfOk result (λ chain. chain.items ≡ chain_of self.now block.now) }
    {
        let mut chain = self.back_from(block)?;
        chain.reverse();
        Ok(chain)
    }

    /// The chain of a block, last block first.
    fn back_from(&self, block: &Digest) -> Result<Vec<Digest>, NoMemory>
        ensures { IfOk result (λ back. reverse back.items ≡ chain_of self.now block.now) }
    {
        let mut back = Vec::new(self.alloc);
        let mut at = *block;
        for _step in 0..self.len() {
            match self.parent(&at) {
                None => return Ok(back),
                Some(parent) => {
                    back.push(at)?;
                    at = parent;
                }
            }
        }
        Ok(back)
    }
}

/// The digest of a block's bytes.
#[tactic(auto, unfolding(crate::specs::Store::block_digest))]
fn digest_of(alloc: Global, block: &Block) -> Result<Digest, NoMemory>
    ensures { IfOk result (λ digest. digest ≡ block_digest block.now) }
{
    let bytes = write_block(alloc, block)?;
    Ok(digest(bytes.as_slice()))
}
