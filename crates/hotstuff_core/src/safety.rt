ghost use Rattle.std.specs.Prelude.{◌≡◌, ◌<◌, Option};
ghost use Rattle.hotstuff_core.specs.Rules.{State, opening, is_safe, may_vote, voted_in, seen_in, seen_answer, view_at, is_at, is_next, head_of, moved};

use block_store::BlockStore;
use seq_base::{Block, Digest};
use std::marker::Model;

/// What changed when a certificate was seen.
#[derive(Clone, Copy, PartialEq, Eq)]
pub struct Seen {
    /// Whether the lock changed.
    pub lock: bool,
    /// The new committed block, if it changed.
    pub committed: Option<Digest>,
}

/// The state that keeps a replica from voting for a block that conflicts with one that may be committed: the view of its
/// last vote, the block on which it is locked, and the last block that it committed.
#[derive(Clone, Copy, Drop)]
pub struct Safety {
    voted: u32,
    lock: Digest,
    committed: Digest,
}

impl Model for Safety {
    ghost use Rattle.hotstuff_core.specs.Rules.{State};

    ghost Value = { State };

    ghost view = { λ s. record { voted = s.voted; lock = s.lock; committed = s.committed } };

    ghost inverse = { λ s. record { voted = s.voted; lock = s.lock; committed = s.committed } };
}

impl Safety {
    /// No vote yet. The first block is the lock and is committed.
    pub fn new() -> Safety
        ensures { result ≡ opening }
    {
        Safety {
            voted: 0,
            lock: Digest::FIRST,
            committed: Digest::FIRST,
        }
    }

    /// The view of the last vote, or 0.
    pub fn voted(&self) -> u32
        ensures { result ≡ self.now.voted }
    {
        self.voted
    }

    pub fn lock(&self) -> Digest
        ensures { result ≡ self.now.lock }
    {
        self.lock
    }

    pub fn committed(&self) -> Digest
        ensures { result ≡ self.now.committed }
    {
        self.committed
    }

    /// The voting rule: the block extends the lock, or its certificate's view is above the lock's (safeNode of the
    /// paper). The block itself need not be stored yet.
    pub fn is_safe(&self, store: &BlockStore, block: &Block) -> bool
        ensures { result ≡ is_safe store.now self.now block.now }
    {
        block.cert.view > view_at(store, &self.lock)
            || store.extends(&block.cert.block, &self.lock)
            || is_at(store, &self.lock, block)
    }

    /// Whether the block may be voted for: its view is above that of the last vote, and the voting rule holds.
    pub fn may_vote(&self, store: &BlockStore, block: &Block) -> bool
        ensures { result ≡ may_vote store.now self.now block.now }
    {
        block.view > self.voted && self.is_safe(store, block)
    }

    /// Records a vote in the view.
    pub fn vote(&mut self, view: u32)
        requires { self.old.voted < view }
        ensures { self.new ≡ voted_in view self.old }
    {
        self.voted = view;
    }

    /// Processes a certificate for a stored block of the view. The block's parent becomes the lock if its view is above
    /// the lock's. The block's grandparent is committed if the three blocks have consecutive views and its view is
    /// above the committed block's.
    pub fn see(&mut self, store: &BlockStore, view: u32, block: &Digest) -> Seen
        ensures state { self.new ≡ seen_in store.now view block.now self.old }
        ensures answer { result ≡ seen_answer store.now view block.now self.old }
    {
        let lock = moved(store, self.lock, store.parent(block));
        let committed = moved(store, self.committed, head_of(store, view, block));
        if let Some(lock) = lock {
            self.lock = lock;
        }
        if let Some(committed) = committed {
            self.committed = committed;
        }
        Seen {
            lock: lock.is_some(),
            committed,
        }
    }
}

/// The view of a stored block, or 0.
fn view_at(store: &BlockStore, block: &Digest) -> u32
    ensures { result ≡ view_at store.now block.now }
{
    store.view_of(block).unwrap_or(0)
}

/// Whether this block is stored under the digest.
fn is_at(store: &BlockStore, digest: &Digest, block: &Block) -> bool
    ensures { result ≡ is_at store.now digest.now block.now }
{
    match store.get(digest) {
        None => false,
        Some(stored) => *stored == *block,
    }
}

/// `next`, if there is one and its view is above that of `so_far`, the current lock or committed block. None: no change.
fn moved(store: &BlockStore, so_far: Digest, next: Option<Digest>) -> Option<Digest>
    ensures { result ≡ moved store.now so_far next }
{
    let next = next?;
    if view_at(store, &next) > view_at(store, &so_far) {
        Some(next)
    } else {
        None
    }
}

/// The block's grandparent, if the block, which is of this view, its parent and its grandparent have consecutive views.
fn head_of(store: &BlockStore, view: u32, block: &Digest) -> Option<Digest>
    ensures { result ≡ head_of store.now view block.now }
{
    let parent = store.parent(block)?;
    let head = store.parent(&parent)?;
    let parent_view = view_at(store, &parent);
    if is_next(parent_view, view) && is_next(view_at(store, &head), parent_view) {
        Some(head)
    } else {
        None
    }
}

fn is_next(view: u32, next: u32) -> bool
    ensures { result ≡ is_next view next }
{
    next > view && next - view == 1
}
