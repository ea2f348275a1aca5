//! Queries over the chain of a stored block, with and without a cached chain state.
ghost use Rattle.std.specs.Prelude.{◌≡◌, IfOk};
ghost use Rattle.seq_base.specs.Limits.{IsWithin};
ghost use Rattle.block_store.specs.Store.{block_digest};

use crate::chains::{block_of_one, is_of, tx};
use chain_store::StoredBlocks;
use seq_base::{Block, Digest, NoMemory, Setting};
use std::alloc::Global;
use std::test::Fail;
use wire_write::{digest, write_block};

/// A case has a committed block. The chain state of a block is cached only if the block extends the committed one.
const CASES: [(&str, Digest); 2] = [
    ("a cached chain state answers", Digest::FIRST),
    (
        "a chain state that is computed again answers",
        Digest([7; 32]),
    ),
];

#[test]
fn stored_blocks_answer_for_their_chains(rt: HostRuntime) -> Result<(), Fail> {
    for (case, commit) in CASES {
        if !holds(rt.alloc(), &commit)? {
            return Err(Fail::new(case));
        }
    }
    Ok(())
}

fn holds(alloc: Global, commit: &Digest) -> Result<bool, Fail> {
    let setting = Setting::new(9, 1, 3, 4)?;
    Ok(holds_at_first(alloc, setting, commit)?)
}

/// Only this function owns the blocks. It has a single return path, because each path drops them.
fn holds_at_first(alloc: Global, setting: Setting, commit: &Digest) -> Result<bool, NoMemory> {
    let mut blocks = StoredBlocks::new(alloc, setting);
    holds_of(alloc, &mut blocks, commit)
}

/// Stores a block whose eight orders list only 4, and queries it.
fn holds_of(alloc: Global, blocks: &mut StoredBlocks, commit: &Digest) -> Result<bool, NoMemory> {
    let block = insert(alloc, blocks, block_of_one(alloc, 4)?, commit)?;
    Ok(has_none(blocks)? && has_one(blocks, &block)?)
}

/// Stores a child of the first block.
fn insert(
    alloc: Global,
    blocks: &mut StoredBlocks,
    block: Block,
    commit: &Digest,
) -> Result<Digest, NoMemory>
    requires { IsWithin block }
{
    let digest = digest_of(alloc, &block)?;
    let store = blocks.store();
    if store.is_stored(&block.cert.block) && !store.clashes(&digest, &block) {
        blocks.insert(block, &digest, commit)?;
    }
    Ok(digest)
}

#[tactic(auto, unfolding(block_store::specs::Store::block_digest))]
fn digest_of(alloc: Global, block: &Block) -> Result<Digest, NoMemory>
    ensures { IfOk result (λ digest. digest ≡ block_digest block.now) }
{
    let bytes = write_block(alloc, block)?;
    Ok(digest(bytes.as_slice()))
}

fn has_none(blocks: &StoredBlocks) -> Result<bool, NoMemory> {
    let count = blocks.batch_count(&Digest::FIRST)?;
    let batch = blocks.batch(&Digest::FIRST, 0)?;
    let is_used = blocks.is_used(&Digest::FIRST, &tx(4))?;
    Ok(count == 0 && batch.is_none() && !is_used)
}

fn has_one(blocks: &StoredBlocks, block: &Digest) -> Result<bool, NoMemory> {
    Ok(has_one_batch(blocks, block)? && uses_only_four(blocks, block)?)
}

fn has_one_batch(blocks: &StoredBlocks, block: &Digest) -> Result<bool, NoMemory> {
    let count = blocks.batch_count(block)?;
    let first = blocks.batch(block, 0)?;
    Ok(count == 1 && is_of(first.as_ref(), 4) && ends_at_one(blocks, block)?)
}

fn ends_at_one(blocks: &StoredBlocks, block: &Digest) -> Result<bool, NoMemory> {
    Ok(blocks.batch(block, 1)?.is_none())
}

fn uses_only_four(blocks: &StoredBlocks, block: &Digest) -> Result<bool, NoMemory> {
    let is_used = blocks.is_used(block, &tx(4))?;
    let other = blocks.is_used(block, &tx(1))?;
    Ok(is_used && !other)
}
