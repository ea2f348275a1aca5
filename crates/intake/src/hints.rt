//! What accepted blocks say. It decides only how fast transactions arrive.
ghost use Rattle.std.specs.Prelude.{◌≡◌, ◌≤◌, ◌<◌, ℕ, length};

use indexmap::IndexSet;
use seq_base::{NoMemory, Tx};
use std::alloc::Global;
use std::marker::Model;
use std::mem;

/// The maximum number of named transactions.
const MAX_NAMED: usize = 4_096;

/// A fresh list of an accepted block, and the replica whose list it is.
#[derive(Drop)]
pub struct ShownList {
    pub replica: u32,
    pub txs: Vec<Tx>,
}

/// An accepted block.
#[derive(Drop)]
pub(crate) struct Accepted {
    pub(crate) view: u32,
    /// How many blocks in a row, up to this one, propose nothing although an honest list holds something.
    pub(crate) idle: u32,
    /// What the block proposes.
    pub(crate) solid: IndexSet<Tx>,
}

/// Waiting transactions that more than f lists of a block held, at most 4,096.
pub(crate) struct Named {
    txs: IndexSet<Tx>,
}

impl Drop for Named {
    fn drop(self) {
        let Named { txs: _ } = self;
    }
}

impl Model for Named {
    ghost use Rattle.std.specs.Prelude.{◌≤◌, List, length};
    ghost use Rattle.seq_base.specs.declared.tx.Tx.{Tx};

    ghost Value = { List Tx };

    ghost view = { λ named. named.txs.keys };

    ghost invariant = { λ named. length named.txs.keys ≤ 4096 };
}

impl Named {
    pub(crate) fn new(alloc: Global) -> Named {
        Named {
            txs: IndexSet::new(alloc),
        }
    }

    pub(crate) fn len(&self) -> usize
        ensures { result ≤ 4096 }
    {
        self.txs.len()
    }

    /// Names a transaction, where there is room.
    pub(crate) fn insert(&mut self, tx: Tx) -> Result<(), NoMemory> {
        if self.txs.len() < MAX_NAMED {
            self.txs.insert(tx)?;
        }
        Ok(())
    }

    fn remove(&mut self, tx: &Tx) {
        self.txs.shift_remove(tx);
    }

    pub(crate) fn get(&self, at: usize) -> Option<Tx> {
        self.txs.get_index(at).copied()
    }
}

/// What the last accepted blocks say.
#[derive(Drop)]
pub(crate) struct Hints {
    pub(crate) named: Named,
    pub(crate) last: Accepted,
    pub(crate) parent: Accepted,
    /// The lists of the last accepted block.
    pub(crate) lists: Vec<ShownList>,
    /// For each replica, what its lists let in and no block proposes yet.
    pub(crate) lent: Vec<Vec<Tx>>,
    pub(crate) given: Vec<Vec<Tx>>,
}

impl Hints {
    pub(crate) fn new(alloc: Global, n: u32) -> Result<Hints, NoMemory> {
        Ok(Hints {
            named: Named::new(alloc),
            last: nothing_accepted(alloc),
            parent: nothing_accepted(alloc),
            lists: Vec::new(alloc),
            lent: empty_lists(alloc, n)?,
            given: empty_lists(alloc, n)?,
        })
    }

    /// Forgets transactions that are final.
    pub(crate) fn forget(&mut self, txs: &[Tx]) {
        self.arrived(txs);
        for at in 0..self.lent.len() {
            drop_all(&mut self.lent[at], txs);
        }
        for at in 0..self.given.len() {
            drop_all(&mut self.given[at], txs);
        }
    }

    /// Those that arrived are no longer named.
    pub(crate) fn arrived(&mut self, txs: &[Tx]) {
        for tx in txs {
            self.named.remove(tx);
        }
    }

    /// Whether the last accepted block or its parent proposes a transaction.
    pub(crate) fn expects(&self, tx: &Tx) -> bool {
        self.last.solid.contains(tx) || self.parent.solid.contains(tx)
    }

    /// Whether a block of this view is no later than the last accepted one.
    pub(crate) fn is_older(&self, view: u32) -> bool {
        view <= self.last.view
    }

    /// The last accepted block, with what it proposes.
    pub(crate) fn accept(
        &mut self,
        alloc: Global,
        view: u32,
        parent: u32,
        lists: Vec<ShownList>,
        solid: IndexSet<Tx>,
        f: u32,
    ) {
        let is_idle = solid.is_empty() && f < filled(lists.as_slice());
        let before = if self.parent.view == parent && self.last.view != parent {
            self.parent.idle
        } else {
            self.last.idle
        };
        let accepted = Accepted {
            view,
            idle: if is_idle { before.saturating_add(1) } else { 0 },
            solid,
        };
        let last = mem::replace(&mut self.last, accepted);
        self.lists = lists;
        if last.view == parent {
            self.parent = last;
        } else if self.parent.view != parent {
            self.parent = nothing_accepted(alloc);
        }
    }
}

fn drop_all(list: &mut Vec<Tx>, txs: &[Tx]) {
    list.retain(|tx| !txs.contains(tx));
}

/// How many lists hold something.
fn filled(lists: &[ShownList]) -> u32 {
    let mut count = 0u32;
    for list in lists {
        if !list.txs.is_empty() {
            count = count.saturating_add(1);
        }
    }
    count
}

fn nothing_accepted(alloc: Global) -> Accepted {
    Accepted {
        view: 0,
        idle: 0,
        solid: IndexSet::new(alloc),
    }
}

fn empty_lists(alloc: Global, n: u32) -> Result<Vec<Vec<Tx>>, NoMemory> {
    let mut lists = Vec::new(alloc);
    for _ in 0..n {
        lists.push(Vec::new(alloc))?;
    }
    Ok(lists)
}
