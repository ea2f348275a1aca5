//! Which transactions accepted blocks name.
ghost use Rattle.std.specs.Prelude.{◌≡◌, ◌++◌, ◌∷◌, [], List, map, IfOk, OnOk};
ghost use Rattle.seq_base.specs.declared.tx.Tx.{Tx};
ghost use Rattle.intake.specs.Naming.{AreCounted, HasNamedAll, HasNamedOf, IsNamed};
ghost use Rattle.intake.specs.Receiving.{received};
ghost use Rattle.intake.specs.Offered.{HasNamed};

use crate::hints::ShownList;
use crate::{Desk, Intake};
use indexmap::{IndexMap, IndexSet};
use seq_base::{NoMemory, Tx};
use std::alloc::Global;

impl Intake {
    /// A block that the core accepted, with the fresh lists that it counts. Transactions in more than f lists are
    /// received and named. After running out of memory some may not be. An older block than the last one, from a peer that
    /// helps to catch up, says nothing of what will be proposed.
    pub fn accepted(
        &mut self,
        view: u32,
        parent: u32,
        lists: Vec<ShownList>,
    ) -> Result<(), NoMemory>
        ensures named { HasNamed self.old self.new }
        ensures only { HasNamedOf self.old.f (map (λ list. list.txs.items) lists.items) self.old self.new }
        ensures all { OnOk result (HasNamedAll self.old.f (map (λ list. list.txs.items) lists.items) self.old self.new) }
    {
        let f = self.desk.f();
        let counts = counts_of(self.alloc, lists.as_slice())?;
        self.name_all(&counts, f)?;
        if self.hints.is_older(view) {
            return Ok(());
        }
        let solid_at = self.desk.n().saturating_sub(f.saturating_mul(2));
        let solid = solid_of(self.alloc, &counts, solid_at)?;
        self.hints.accept(self.alloc, view, parent, lists, solid, f);
        Ok(())
    }

    fn name_all(&mut self, counts: &IndexMap<Tx, u32>, f: u32) -> Result<(), NoMemory>
        ensures named { HasNamed self.old self.new }
        ensures only { (lists : List (List Tx)) → AreCounted lists counts.now.entries → HasNamedOf f lists self.old self.new }
        ensures all { OnOk result ((lists : List (List Tx)) → AreCounted lists counts.now.entries → HasNamedAll f lists self.old self.new) }
    {
        for (tx, count) in counts.iter() {
            if f < *count {
                self.name(*tx)?;
            }
        }
        Ok(())
    }

    fn name(&mut self, tx: Tx) -> Result<(), NoMemory>
        ensures named { HasNamed self.old self.new }
        ensures one { IsNamed tx self.old self.new }
        ensures ok { OnOk result (self.new ≡ received self.old.n tx self.old) }
    {
        receive_named(&mut self.desk, tx)?;
        if self.desk.is_waiting(&tx) {
            self.hints.named.insert(tx)?;
        }
        Ok(())
    }
}

/// Receives a transaction of a block's list.
pub(crate) fn receive_named(desk: &mut Desk, tx: Tx) -> Result<(), NoMemory>
    ensures named { HasNamed desk.old desk.new }
    ensures one { IsNamed tx desk.old desk.new }
    ensures ok { OnOk result (desk.new ≡ received desk.old.n tx desk.old) }
{
    let blocks = desk.n();
    desk.receive(tx, blocks)?;
    Ok(())
}

/// How many lists hold each transaction.
fn counts_of(alloc: Global, lists: &[ShownList]) -> Result<IndexMap<Tx, u32>, NoMemory>
    ensures { IfOk result (λ counts. AreCounted (map (λ list. list.txs.items) lists.now) counts.entries) }
{
    let mut counts = IndexMap::new(alloc);
    for list in lists {
        count(&mut counts, list.txs.as_slice())?;
    }
    Ok(counts)
}

fn count(counts: &mut IndexMap<Tx, u32>, txs: &[Tx]) -> Result<(), NoMemory>
    ensures { OnOk result ((lists : List (List Tx)) → AreCounted lists counts.old.entries → AreCounted (lists ++ txs.now ∷ []) counts.new.entries) }
{
    for tx in txs {
        count_one(counts, tx)?;
    }
    Ok(())
}

fn count_one(counts: &mut IndexMap<Tx, u32>, tx: &Tx) -> Result<(), NoMemory>
    ensures { OnOk result ((lists : List (List Tx)) (txs : List Tx) → AreCounted (lists ++ txs ∷ []) counts.old.entries
        → AreCounted (lists ++ (txs ++ tx.now ∷ []) ∷ []) counts.new.entries) }
{
    let before = counts.get(tx).copied().unwrap_or(0);
    counts.insert(*tx, before.saturating_add(1))?;
    Ok(())
}

/// Those in at least that many lists.
fn solid_of(
    alloc: Global,
    counts: &IndexMap<Tx, u32>,
    solid_at: u32,
) -> Result<IndexSet<Tx>, NoMemory> {
    let mut solid = IndexSet::new(alloc);
    for (tx, count) in counts.iter() {
        if solid_at <= *count {
            solid.insert(*tx)?;
        }
    }
    Ok(solid)
}
