//! Seals that were accepted lately: up to eight of each replica.
ghost use Rattle.std.specs.Prelude.{◌≡◌, IfOk, true};
ghost use Rattle.node_core.specs.Rows.{Check};
ghost use Rattle.replica_box.specs.SealCache.{AreGood, IsGood};

use seq_base::NoMemory;
use std::alloc::Global;
use std::marker::Model;

/// How many seals of a replica are remembered.
const SEALS: usize = 8;

/// The seals that were accepted last. Each replica has a ring of its own, so that a faulty one can't push out the seals of
/// others.
pub(crate) struct RecentSeals {
    alloc: Global,
    /// Those of replica r have the places 8 · r to 8 · r + 7.
    seals: Vec<Option<AcceptedSeal>>,
    /// How many seals of each replica were put there, modulo 256: the next one replaces the oldest.
    counts: Vec<u8>,
}

impl Drop for RecentSeals {
    fn drop(self) {
        let RecentSeals {
            alloc: _,
            seals: _,
            counts: _,
        } = self;
    }
}

impl Model for RecentSeals {
    ghost use Rattle.std.specs.Prelude.{List, Option};
    ghost use Rattle.replica_box.specs.SealCache.{Accepted};

    ghost Value = { List (Option Accepted) };

    ghost view = { λ r. r.seals.items };
}

impl RecentSeals {
    /// No seal is remembered. There is room for those of this many replicas.
    pub(crate) fn new(alloc: Global, replicas: usize) -> Result<RecentSeals, NoMemory>
        ensures { IfOk result (λ recent. (fits : Check) → AreGood fits recent) }
    {
        let seals = no_seals(alloc, replicas.saturating_mul(SEALS))?;
        let mut counts = Vec::new(alloc);
        for _ in 0..replicas {
            counts.push(0)?;
        }
        Ok(RecentSeals {
            alloc,
            seals,
            counts,
        })
    }

    /// Whether this seal of a replica is remembered for this statement.
    pub(crate) fn has(&self, replica: u32, statement: &[u8], seal: &[u8]) -> bool
        ensures { (fits : Check) → AreGood fits self.now → result ≡ true → fits replica statement.now seal.now ≡ true }
    {
        let first = replica as usize * SEALS;
        for place in first..first + SEALS {
            if self.has_at(place, replica, statement, seal) {
                return true;
            }
        }
        false
    }

    fn has_at(&self, place: usize, replica: u32, statement: &[u8], seal: &[u8]) -> bool
        ensures { (fits : Check) → AreGood fits self.now → result ≡ true → fits replica statement.now seal.now ≡ true }
    {
        match self.seals.get(place) {
            Some(Some(known)) => known.is(replica, statement, seal),
            _ => false,
        }
    }

    /// Remembers a seal of a replica. It replaces the oldest one, where there are eight.
    pub(crate) fn remember(
        &mut self,
        replica: u32,
        statement: &[u8],
        seal: &[u8],
    ) -> Result<(), NoMemory>
        ensures { (fits : Check) → fits replica statement.now seal.now ≡ true → AreGood fits self.old → AreGood fits self.new }
    {
        let accepted = AcceptedSeal::new(self.alloc, replica, statement, seal)?;
        self.add(accepted);
        Ok(())
    }

    /// Remembers a seal in the ring of its own replica.
    pub(crate) fn add(&mut self, accepted: AcceptedSeal)
        ensures { (fits : Check) → IsGood fits (Some accepted) → AreGood fits self.old → AreGood fits self.new }
    {
        if let Some(place) = self.next_place(accepted.replica) {
            self.put(place, accepted);
        }
    }

    /// The place of a replica's next seal, if there is room for those of this replica.
    fn next_place(&mut self, replica: u32) -> Option<usize>
        ensures { self.new ≡ self.old }
    {
        let at = replica as usize;
        if at >= self.counts.len() {
            return None;
        }
        let count = self.counts[at];
        self.counts[at] = count.wrapping_add(1);
        Some(at * SEALS + usize::from(count) % SEALS)
    }

    fn put(&mut self, place: usize, accepted: AcceptedSeal)
        ensures { (fits : Check) → IsGood fits (Some accepted) → AreGood fits self.old → AreGood fits self.new }
    {
        if place < self.seals.len() {
            self.seals[place] = Some(accepted);
        }
    }
}

/// Places without a seal.
fn no_seals(alloc: Global, count: usize) -> Result<Vec<Option<AcceptedSeal>>, NoMemory>
    ensures { IfOk result (λ seals. (fits : Check) → AreGood fits seals.items) }
{
    let mut seals = Vec::new(alloc);
    for _ in 0..count {
        seals.push(None)?;
    }
    Ok(seals)
}

/// A seal that was accepted, whole, with its replica and its statement.
pub(crate) struct AcceptedSeal {
    replica: u32,
    statement: Vec<u8>,
    seal: Vec<u8>,
}

impl Drop for AcceptedSeal {
    fn drop(self) {
        let AcceptedSeal {
            replica: _,
            statement: _,
            seal: _,
        } = self;
    }
}

impl Model for AcceptedSeal {
    ghost use Rattle.replica_box.specs.SealCache.{Accepted};

    ghost Value = { Accepted };

    ghost view = { λ s. record { replica = s.replica; statement = s.statement.items; seal = s.seal.items } };
}

impl AcceptedSeal {
    pub(crate) fn new(
        alloc: Global,
        replica: u32,
        statement: &[u8],
        seal: &[u8],
    ) -> Result<AcceptedSeal, NoMemory>
        ensures { IfOk result (λ known. known ≡ record { replica = replica; statement = statement.now; seal = seal.now }) }
    {
        let statement = Vec::from_slice(alloc, statement)?;
        let seal = Vec::from_slice(alloc, seal)?;
        Ok(AcceptedSeal {
            replica,
            statement,
            seal,
        })
    }

    /// Whether it is this seal of the replica for this statement. Statements differ in their first bytes.
    fn is(&self, replica: u32, statement: &[u8], seal: &[u8]) -> bool
        ensures { result ≡ true → self.now ≡ record { replica = replica; statement = statement.now; seal = seal.now } }
    {
        self.replica == replica
            && are_same(self.statement.as_slice(), statement)
            && are_same(self.seal.as_slice(), seal)
    }
}

fn are_same(one: &[u8], other: &[u8]) -> bool
    ensures { result ≡ true → one.now ≡ other.now }
{
    one == other
}
