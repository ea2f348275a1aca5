//! What a replica may vote for, and how its lock and its commit change.
use crate::stores::{Three, block, line, put};
use block_store::{BlockStore, StoreFault};
use hotstuff_core::{Safety, Seen};
use seq_base::Digest;
use std::alloc::Global;
use std::test::Fail;

/// Properties of a store with a chain of three blocks.
const CASES: [&str; 3] = [
    "a three-chain commits its head",
    "a gap in the views commits nothing",
    "the lock decides what may be voted for",
];

#[test]
fn votes_and_commits_are_safe(rt: HostRuntime) -> Result<(), Fail> {
    for case in CASES {
        if !holds(rt.alloc(), case)? {
            return Err(Fail::new(case));
        }
    }
    Ok(())
}

/// Only this function owns the store. It has a single return path, because each path drops the store.
fn holds(alloc: Global, case: &str) -> Result<bool, StoreFault> {
    let mut store = BlockStore::new(alloc);
    holds_of(alloc, &mut store, case)
}

fn holds_of(alloc: Global, store: &mut BlockStore, case: &str) -> Result<bool, StoreFault> {
    let line = line(alloc, store)?;
    match case {
        "a three-chain commits its head" => Ok(head_is_committed(store, &line)),
        "a gap in the views commits nothing" => gap_commits_nothing(alloc, store, &line),
        "the lock decides what may be voted for" => Ok(lock_decides(alloc, store, &line)),
        _ => Ok(false),
    }
}

/// Whether seeing a certificate has this result.
fn sees(
    safety: &mut Safety,
    store: &BlockStore,
    view: u32,
    block: &Digest,
    lock: bool,
    committed: Option<Digest>,
) -> bool {
    safety.see(store, view, block) == Seen { lock, committed }
}

fn has(safety: &Safety, lock: &Digest, committed: &Digest) -> bool {
    safety.lock() == *lock && safety.committed() == *committed
}

fn head_is_committed(store: &BlockStore, line: &Three) -> bool {
    let mut safety = Safety::new();
    sees(&mut safety, store, 1, &line.a, false, None)
        && sees(&mut safety, store, 2, &line.b, true, None)
        && sees(&mut safety, store, 3, &line.c, true, Some(line.a))
        && has(&safety, &line.b, &line.a)
        && sees(&mut safety, store, 2, &line.b, false, None)
}

fn gap_commits_nothing(
    alloc: Global,
    store: &mut BlockStore,
    line: &Three,
) -> Result<bool, StoreFault> {
    let late = put(alloc, store, 5, line.c, 3)?;
    let mut safety = Safety::new();
    Ok(sees(&mut safety, store, 5, &late, true, None) && has(&safety, &line.c, &Digest::FIRST))
}

/// A digest that no block has.
const UNKNOWN: Digest = Digest([9; 32]);

fn lock_decides(alloc: Global, store: &BlockStore, line: &Three) -> bool {
    let mut safety = Safety::new();
    safety.see(store, 3, &line.c);
    lock_is_asked(alloc, &safety, store, line) && vote_is_kept(alloc, &mut safety, store, line)
}

/// A block on the lock, one on another branch, and one with a higher certificate.
fn lock_is_asked(alloc: Global, safety: &Safety, store: &BlockStore, line: &Three) -> bool {
    may_vote(alloc, safety, store, 4, line.b, 2)
        && !may_vote(alloc, safety, store, 4, line.a, 1)
        && safety.is_safe(store, &block(alloc, 5, UNKNOWN, 4))
}

fn may_vote(
    alloc: Global,
    safety: &Safety,
    store: &BlockStore,
    view: u32,
    parent: Digest,
    parent_view: u32,
) -> bool {
    safety.may_vote(store, &block(alloc, view, parent, parent_view))
}

fn vote_is_kept(alloc: Global, safety: &mut Safety, store: &BlockStore, line: &Three) -> bool {
    if safety.voted() < 4 {
        safety.vote(4);
    }
    safety.voted() == 4
        && !may_vote(alloc, safety, store, 4, line.b, 2)
        && may_vote(alloc, safety, store, 5, UNKNOWN, 4)
}
