//! The log and its turns.
ghost use Rattle.std.specs.Prelude.{◌∷◌, None, ◌≡◌, ◌+◌, ◌-◌, ◌≤◌, List, [], ◌++◌, true, false, length, IfOk};
ghost use mathlib.Core.List.{IsPrefix};
ghost use Rattle.locked_log.specs.History.{IsPassOf, IsTurn, HasLooked, OwnsAll, first_pass, giving, given, joined, places_after};
ghost use Rattle.locked_log.specs.Turns.{IsIdle, known_by, view};

use crate::grows::{Grows, Job};
use crate::pass::Pass;
use crate::plays::{Compares, Loads, Opening, Parts, Releases, Stores, Takes, Turns};
use crate::view::View;
use atomic_table::{Seat, Table};
use seq_base::NoMemory;
use std::alloc::Global;
use std::marker::Model;
use std::snapshot::Snapshot;
use std::sync::Wait;
use std::thread;

/// The words of the lock: the number of holders, and the length of the history.
const LOCK: usize = 0;

const LENGTH: usize = 1;

/// The slot of the value.
const VALUE: usize = 0;

/// A value that only grows, and that threads access in turns. Contracts see the name of the log and its number of
/// parts.
#[derive(Drop)]
pub struct LockedLog<L: Grows> {
    table: Table<Option<L>, View<L::Entry>, Opening<L>, Turns, Global>,
}

impl<L: Grows> Model for LockedLog<L> {
    ghost use Rattle.std.specs.Prelude.{◌≡◌};
    ghost use Rattle.locked_log.specs.History.{Opened};

    ghost Value = { Opened };

    ghost view = { λ t. record { name = t.table.shared.table_id; parts = t.table.shared.key.parts } };

    ghost invariant = { λ t. (t.table.shared.table_id.words ≡ 2) × (t.table.shared.table_id.slots ≡ 1) };
}

impl<L: Grows> LockedLog<L> {
    /// A log of this value, and a pass that has all parts.
    pub fn start(alloc: Global, first: L, parts: u32) -> Result<(LockedLog<L>, Pass<L>), NoMemory>
        requires { 1 ≤ parts }
        ensures parts { IfOk result (λ r. r.0.parts ≡ parts) }
        ensures pass { IfOk result (λ r. r.1 ≡ first_pass r.0 (L.list first)) }
    {
        let about = Opening {
            parts,
            first: Snapshot::of(&first),
        };
        let words = [0, first.count()];
        let mut slots = Vec::new(alloc);
        if slots.push(Some(first)).is_err() {
            return Err(NoMemory);
        }
        match Table::new(alloc, &words, slots, &about) {
            Ok((table, seat)) => Ok((LockedLog { table }, Pass { seat })),
            Err(_) => Err(NoMemory),
        }
    }

    /// A pass that has seen as much, with one part of the other pass. It does not wait and takes no memory.
    pub fn split(&self, pass: &mut Pass<L>) -> Pass<L>
        requires own { IsPassOf self.now pass.old }
        requires parts { 2 ≤ pass.old.parts }
        ensures kept { pass.new ≡ giving pass.old }
        ensures given { result ≡ given pass.old }
    {
        Pass {
            seat: self.table.shared.split_seat::<Parts>(&mut pass.seat),
        }
    }

    /// Joins both passes into one, which has seen what either had. It does not wait and takes no memory.
    pub fn join(&self, pass: &mut Pass<L>, other: Pass<L>)
        requires own { IsPassOf self.now pass.old }
        requires other { IsPassOf self.now other }
        ensures joined { pass.new ≡ joined pass.old other }
        ensures parts { 2 ≤ pass.new.parts }
        ensures seen { IsPrefix pass.old.seen pass.new.seen }
        ensures reported { IsPrefix other.seen pass.new.seen }
    {
        let Pass { seat } = other;
        self.table.shared.join_seat::<Parts>(&mut pass.seat, seat);
        self.table.shared.load::<Compares>(&mut pass.seat, LOCK);
    }

    /// Exchanges what two passes have seen. The other pass learns all that this one has seen, and this one learns all
    /// that the other has seen. One part is lent and returned. It does not wait and takes no memory.
    pub fn report(&self, pass: &mut Pass<L>, other: &mut Pass<L>)
        requires own { IsPassOf self.now pass.old }
        requires other { IsPassOf self.now other.old }
        requires parts { 2 ≤ pass.old.parts }
        ensures reported { HasLooked other.old other.new × IsPrefix pass.old.seen other.new.seen }
        ensures heard { HasLooked pass.old pass.new × IsPrefix other.new.seen pass.new.seen }
    {
        let note = self.split(pass);
        self.join(other, note);
        let part = self.split(other);
        self.join(pass, part);
    }

    /// The length that the list had at some step of this call. It does not wait and takes no memory.
    pub fn seen(&self, pass: &mut Pass<L>) -> u64
        requires { IsPassOf self.now pass.old }
        ensures looked { HasLooked pass.old pass.new }
        ensures length { result ≡ length pass.new.seen }
    {
        self.table.shared.load::<Loads>(&mut pass.seat, LENGTH)
    }

    // Takes the lock and the value.
    fn take<R: Wait>(&self, rt: &R, seat: &mut Seat<Option<L>, View<L::Entry>>) -> L
        requires own { seat.old.table_id ≡ self.now.name }
        requires idle { (seat.old.me.1 ≡ []) × IsIdle seat.old.me.0 }
        ensures own { (seat.new.table_id ≡ seat.old.table_id) × (seat.new.id ≡ seat.old.id) }
        ensures seen { IsPrefix seat.old.me.0.seen (L.list result) }
        ensures held { seat.new.me ≡ (view seat.old.me.0.parts (L.list result) seat.old.me.0.reported seat.old.me.0.own true, (0, None) ∷ []) }
    {
        for _ in rt.forever() {
            if self
                .table
                .shared
                .compare_exchange::<Takes>(seat, LOCK, 0, 1)
                == 0
            {
                match self.table.shared.exchange(seat, VALUE, None) {
                    Some(inner) => return inner,
                    None => unreachable!(),
                }
            }
            thread::yield_now();
        }
        unreachable!()
    }

    // Stores the length, and returns the value and the lock.
    fn give(&self, seat: &mut Seat<Option<L>, View<L::Entry>>, before: u64, inner: L)
        requires own { seat.old.table_id ≡ self.now.name }
        requires held { (seat.old.me.1 ≡ (0, None) ∷ []) × (seat.old.me.0.holds ≡ true) }
        requires grows { IsPrefix seat.old.me.0.seen (L.list inner) × (before ≡ length seat.old.me.0.seen) }
        ensures own { (seat.new.table_id ≡ seat.old.table_id) × (seat.new.id ≡ seat.old.id) }
        ensures given { seat.new.me
            ≡ (view seat.old.me.0.parts (L.list inner) seat.old.me.0.reported (seat.old.me.0.own ++ places_after seat.old.me.0.seen (L.list inner)) false, []) }
    {
        let after = inner.count();
        let value = Some(inner);
        self.table
            .shared
            .compare_exchange_with::<Stores>(seat, LENGTH, before, after, &value);
        let _ = self.table.shared.exchange(seat, VALUE, value);
        self.table.shared.store::<Releases>(seat, LOCK, 0);
    }

    fn turn<J: Job<L>, R: Wait>(
        &self,
        rt: &R,
        seat: &mut Seat<Option<L>, View<L::Entry>>,
        job: &mut J,
    ) -> J::Answer
        requires own { seat.old.table_id ≡ self.now.name }
        requires idle { (seat.old.me.1 ≡ []) × IsIdle seat.old.me.0 }
        requires can { (xs : List L.Entry) → IsPrefix seat.old.me.0.seen xs → J.can job.old xs }
        ensures own { (seat.new.table_id ≡ seat.old.table_id) × (seat.new.me.1 ≡ []) × IsIdle seat.new.me.0 }
        ensures turn { IsTurn J.does (known_by seat.old.table_id seat.old.me.0) job.old result (known_by seat.new.table_id seat.new.me.0) job.new }
    {
        let mut inner = self.take(rt, seat);
        let before = inner.count();
        let answer = job.work(&mut inner);
        self.give(seat, before, inner);
        answer
    }

    /// Runs the job once, on a value whose list extends all that the pass has seen. Afterwards the pass has seen the
    /// whole new list. It waits for the lock.
    pub fn with_lock<J: Job<L>, R: Wait>(
        &self,
        rt: &R,
        pass: &mut Pass<L>,
        job: &mut J,
    ) -> J::Answer
        requires own { IsPassOf self.now pass.old }
        requires can { (xs : List L.Entry) → IsPrefix pass.old.seen xs → J.can job.old xs }
        ensures { IsTurn J.does pass.old job.old result pass.new job.new }
    {
        self.turn(rt, &mut pass.seat, job)
    }

    /// The value, from the pass that has all parts. It does not wait and takes no memory.
    pub fn close(self, pass: Pass<L>) -> L
        requires own { IsPassOf self pass }
        requires all { pass.parts ≡ self.parts }
        ensures list { L.list result ≡ pass.seen }
        ensures own { OwnsAll pass }
    {
        let LockedLog { table } = self;
        let Pass { seat } = pass;
        let mut closed = table.close_with(seat);
        let value = closed.take(VALUE);
        closed.free();
        match value {
            Some(inner) => inner,
            None => unreachable!(),
        }
    }
}
