//! What holds for stored blocks. Each law is the contract of a function with an empty body.
ghost use Rattle.std.specs.Prelude.{◌≡◌, ◌↔◌, List, Some, None, true, false};
ghost use Rattle.seq_base.specs.Blocks.{first_digest};
ghost use Rattle.seq_base.specs.declared.digest.Digest.{Digest};
ghost use Rattle.seq_base.specs.declared.block.Block.{Block};
ghost use Rattle.block_store.specs.Chains.{parent_of, extends, Extends, chain_of, Follow};
ghost use Rattle.block_store.specs.Entries.{IsStore};
ghost use Rattle.block_store.specs.Store.{block_digest, block_at, is_stored, clashes, with_block};

/// A stored block extends another exactly where parent steps lead from it to the other.
pub fn extending_is_by_parent_steps()
    ensures { (store : List Block) (child ancestor : Digest) → IsStore store → is_stored store child ≡ true
        → (extends store child ancestor ≡ true) ↔ Extends store child ancestor }
{}

/// The chain of a stored block leads from the first block to it.
pub fn chains_begin_at_the_first_block()
    ensures { (store : List Block) (block : Digest) → IsStore store → is_stored store block ≡ true
        → Follow store first_digest (chain_of store block) block }
{}

/// Storing a block does not change the block found under a digest.
pub fn stored_blocks_stay()
    ensures { (store : List Block) (next : Block) (digest : Digest) (block : Block) → block_at store digest ≡ Some block
        → block_at (with_block next store) digest ≡ Some block }
{}

/// A block that is stored is found under its digest.
pub fn stored_blocks_are_found()
    ensures { (store : List Block) (block : Block) → clashes store (block_digest block) block ≡ false
        → block_at (with_block block store) (block_digest block) ≡ Some block }
{}

/// The parent of a stored block is stored.
pub fn parents_are_stored()
    ensures { (store : List Block) (digest parent : Digest) → IsStore store → parent_of store digest ≡ Some parent
        → is_stored store parent ≡ true }
{}

/// The first block has no parent.
pub fn the_first_block_has_no_parent()
    ensures { (store : List Block) → IsStore store → parent_of store first_digest ≡ None }
{}
