//! A store of blocks by their digests.
ghost use Rattle.seq_base.specs.Limits.{IsWithin};

use block_store::{BlockStore, StoreFault};
use seq_base::{Block, Cert, CertVotes, Digest, NoMemory, SealedOrders};
use std::alloc::Global;
use std::test::Fail;

/// Properties of a store that starts empty.
const CASES: [&str; 6] = [
    "only another block clashes",
    "blocks extend their ancestors",
    "chains lead from the first block",
    "what is stored is found",
    "blocks are in the order of storing",
    "a block without its parent is an orphan",
];

#[test]
fn stores_keep_blocks_by_their_digests(rt: HostRuntime) -> Result<(), Fail> {
    for case in CASES {
        if !holds(rt.alloc(), case)? {
            return Err(Fail::new(case));
        }
    }
    Ok(())
}

/// A digest that no block has.
const OTHER: Digest = Digest([7; 32]);

/// A block without orders, under a certificate without votes.
pub(crate) fn block(alloc: Global, view: u32, parent: Digest, parent_view: u32) -> Block
    ensures { IsWithin result }
{
    Block {
        view,
        cert: Cert {
            view: parent_view,
            block: parent,
            votes: CertVotes::of(Vec::new(alloc)),
        },
        orders: SealedOrders::of(Vec::new(alloc)),
    }
}

/// Stores such a block. No clause states this, which keeps the obligations of each test short.
pub(crate) fn put(
    alloc: Global,
    store: &mut BlockStore,
    view: u32,
    parent: Digest,
    parent_view: u32,
) -> Result<Digest, StoreFault> {
    store.put(block(alloc, view, parent, parent_view))
}

/// Blocks a, b and c with the views 1, 2 and 3, each the parent of the next.
#[derive(Drop)]
pub(crate) struct Three {
    pub(crate) a: Digest,
    pub(crate) b: Digest,
    pub(crate) c: Digest,
}

pub(crate) fn line(alloc: Global, store: &mut BlockStore) -> Result<Three, StoreFault> {
    let a = put(alloc, store, 1, Digest::FIRST, 0)?;
    let b = put(alloc, store, 2, a, 1)?;
    let c = put(alloc, store, 3, b, 2)?;
    Ok(Three { a, b, c })
}

/// Only this function owns the store. It has a single return path, because each path drops the store.
fn holds(alloc: Global, case: &str) -> Result<bool, StoreFault> {
    let mut store = BlockStore::new(alloc);
    holds_of(alloc, &mut store, case)
}

fn holds_of(alloc: Global, store: &mut BlockStore, case: &str) -> Result<bool, StoreFault> {
    match case {
        "only another block clashes" => only_another_clashes(alloc, store),
        "blocks extend their ancestors" => blocks_extend(alloc, store),
        "chains lead from the first block" => chains_lead(alloc, store),
        "what is stored is found" => is_found(alloc, store),
        "blocks are in the order of storing" => are_in_order(alloc, store),
        "a block without its parent is an orphan" => Ok(is_orphan(alloc, store)),
        _ => Ok(false),
    }
}

fn only_another_clashes(alloc: Global, store: &mut BlockStore) -> Result<bool, StoreFault> {
    let digest = put(alloc, store, 1, Digest::FIRST, 0)?;
    Ok(
        !clashes(alloc, store, &digest, 1)
            && clashes(alloc, store, &digest, 2)
            && !clashes(alloc, store, &OTHER, 2)
            && clashes(alloc, store, &Digest::FIRST, 1),
    )
}

/// Whether a child of the first block with this view clashes with the block under a digest.
fn clashes(alloc: Global, store: &BlockStore, digest: &Digest, view: u32) -> bool {
    store.clashes(digest, &block(alloc, view, Digest::FIRST, 0))
}

fn blocks_extend(alloc: Global, store: &mut BlockStore) -> Result<bool, StoreFault> {
    let line = line(alloc, store)?;
    let side = put(alloc, store, 4, line.a, 1)?;
    Ok(line_extends(store, &line) && side_extends(store, &line, &side))
}

fn line_extends(store: &BlockStore, line: &Three) -> bool {
    store.extends(&line.c, &line.c)
        && store.extends(&line.c, &line.b)
        && store.extends(&line.c, &line.a)
        && store.extends(&line.c, &Digest::FIRST)
        && store.extends(&Digest::FIRST, &Digest::FIRST)
        && !store.extends(&line.b, &line.c)
}

fn side_extends(store: &BlockStore, line: &Three, side: &Digest) -> bool {
    !store.extends(side, &line.b)
        && store.extends(side, &line.a)
        && !store.extends(&OTHER, &OTHER)
        && !store.extends(&OTHER, &line.a)
}

fn chains_lead(alloc: Global, store: &mut BlockStore) -> Result<bool, StoreFault> {
    let before = is_chain(store, &Digest::FIRST, &[]);
    let a = put(alloc, store, 1, Digest::FIRST, 0)?;
    let b = put(alloc, store, 3, a, 1)?;
    let again = put(alloc, store, 3, a, 1)?;
    let is_same = again == b;
    Ok(before && is_same && is_chain(store, &b, &[a, b]) && is_chain(store, &Digest::FIRST, &[]))
}

fn is_chain(store: &BlockStore, block: &Digest, wanted: &[Digest]) -> bool {
    match store.chain(block) {
        Ok(chain) => chain.as_slice() == wanted,
        Err(NoMemory) => false,
    }
}

fn is_found(alloc: Global, store: &mut BlockStore) -> Result<bool, StoreFault> {
    let a = put(alloc, store, 1, Digest::FIRST, 0)?;
    let b = put(alloc, store, 3, a, 1)?;
    Ok(is_given(store, &b) && is_placed(store, &a, &b))
}

fn is_given(store: &BlockStore, block: &Digest) -> bool {
    match store.get(block) {
        Some(found) => found.view == 3 && store.get(&Digest::FIRST).is_none(),
        None => false,
    }
}

fn is_placed(store: &BlockStore, parent: &Digest, block: &Digest) -> bool {
    store.view_of(block) == Some(3)
        && store.view_of(&OTHER).is_none()
        && store.parent(block) == Some(*parent)
        && store.parent(&Digest::FIRST).is_none()
}

/// Whether four blocks are in the order of storing. The third is stored once more, which changes no place.
fn are_in_order(alloc: Global, store: &mut BlockStore) -> Result<bool, StoreFault> {
    let before = store.len() == 0 && store.at(0).is_none();
    let line = line(alloc, store)?;
    put(alloc, store, 4, line.a, 1)?;
    put(alloc, store, 3, line.b, 2)?;
    Ok(before && have_views(store, &[1, 2, 3, 4]))
}

/// Whether the blocks have these views, in the order in which they were stored.
fn have_views(store: &BlockStore, views: &[u32]) -> bool {
    store.len() == views.len()
        && store.at(views.len()).is_none()
        && views
            .iter()
            .enumerate()
            .all(|(place, view)| has_view(store.at(place), *view))
}

fn has_view(block: Option<&Block>, view: u32) -> bool {
    match block {
        Some(block) => block.view == view,
        None => false,
    }
}

fn is_orphan(alloc: Global, store: &mut BlockStore) -> bool {
    put(alloc, store, 2, OTHER, 1).err() == Some(StoreFault::Orphan { parent: OTHER })
        && !store.is_stored(&OTHER)
        && store.is_stored(&Digest::FIRST)
}
