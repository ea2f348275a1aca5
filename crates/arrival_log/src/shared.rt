ghost use Rattle.std.specs.Prelude.{◌≡◌, ◌<◌, ◌≤◌, [], length, slice_get, drop, Some, IfOk};
ghost use mathlib.Core.List.{IsPrefix};
ghost use Rattle.locked_log.specs.History.{IsPassOf, HasLooked, OwnsAll, first_pass, giving, given, joined};
ghost use Rattle.arrival_log.specs.Arrivals.{IsArrivals, HasSubmitted, place_of};

use crate::jobs::{CopyFrom, Submit};
use crate::log::{Log, Placed, SubmitFault};
use crate::pass::LogPass;
use locked_log::LockedLog;
use seq_base::{NoMemory, Tx, TxList};
use std::alloc::Global;
use std::marker::Model;
use std::sync::Wait;

/// A log that threads share. Contracts see the name of the log and its number of parts.
#[derive(Drop)]
pub struct SharedLog {
    log: LockedLog<Log>,
    alloc: Global,
}

impl Model for SharedLog {
    ghost use Rattle.locked_log.specs.History.{Opened};

    ghost Value = { Opened };

    ghost view = { λ log. log.log };
}

impl SharedLog {
    /// An empty log, and a pass that has all parts.
    pub fn start(alloc: Global, parts: u32) -> Result<(SharedLog, LogPass), NoMemory>
        requires { 1 ≤ parts }
        ensures parts { IfOk result (λ r. r.0.parts ≡ parts) }
        ensures pass { IfOk result (λ r. r.1 ≡ first_pass r.0 []) }
    {
        let (log, pass) = LockedLog::start(alloc, Log::new(alloc), parts)?;
        Ok((SharedLog { log, alloc }, LogPass { pass }))
    }

    /// A pass that has seen as much, with one part of the other pass.
    pub fn split(&self, pass: &mut LogPass) -> LogPass
        requires own { IsPassOf self.now pass.old }
        requires parts { 2 ≤ pass.old.parts }
        ensures kept { pass.new ≡ giving pass.old }
        ensures given { result ≡ given pass.old }
        ensures arrivals { IsArrivals result.seen }
    {
        LogPass {
            pass: self.log.split(&mut pass.pass),
        }
    }

    /// Joins both passes into one, which has seen what either had.
    pub fn join(&self, pass: &mut LogPass, other: LogPass)
        requires own { IsPassOf self.now pass.old }
        requires other { IsPassOf self.now other }
        ensures joined { pass.new ≡ joined pass.old other }
        ensures parts { 2 ≤ pass.new.parts }
        ensures seen { IsPrefix pass.old.seen pass.new.seen }
        ensures reported { IsPrefix other.seen pass.new.seen }
        ensures arrivals { IsArrivals pass.new.seen }
    {
        let LogPass { pass: other } = other;
        self.log.join(&mut pass.pass, other);
    }

    /// Exchanges what two passes have seen. The other pass learns all that this one has seen, and this one learns all
    /// that the other has seen. One part is lent and returned.
    pub fn report(&self, pass: &mut LogPass, other: &mut LogPass)
        requires own { IsPassOf self.now pass.old }
        requires other { IsPassOf self.now other.old }
        requires parts { 2 ≤ pass.old.parts }
        ensures reported { HasLooked other.old other.new × IsPrefix pass.old.seen other.new.seen }
        ensures heard { HasLooked pass.old pass.new × IsPrefix other.new.seen pass.new.seen }
        ensures arrivals { IsArrivals other.new.seen × IsArrivals pass.new.seen }
    {
        let note = self.split(pass);
        self.join(other, note);
        let part = self.split(other);
        self.join(pass, part);
    }

    /// Submits a transaction to the log as it is at this turn. Afterwards the pass has seen the whole log of the
    /// turn. Unless the answer is `At`, this is the log that the turn found. It waits for the lock.
    pub fn submit<R: Wait>(&self, rt: &R, pass: &mut LogPass, tx: Tx) -> Result<Placed, SubmitFault>
        requires { IsPassOf self.now pass.old }
        ensures submitted { HasSubmitted pass.old tx result pass.new }
        ensures seen { IsPrefix pass.old.seen pass.new.seen }
        ensures within { IfOk result (λ placed. place_of placed < length pass.new.seen) }
        ensures stands { IfOk result (λ placed. slice_get pass.new.seen (place_of placed) ≡ Some tx) }
    {
        let mut job = Submit { tx };
        self.log.with_lock(rt, &mut pass.pass, &mut job)
    }

    /// The entries from a position on, at this turn. Afterwards the pass has seen the whole log of the turn. It waits
    /// for the lock.
    pub fn snapshot<R: Wait>(
        &self,
        rt: &R,
        pass: &mut LogPass,
        from: u32,
    ) -> Result<TxList, NoMemory>
        requires own { IsPassOf self.now pass.old }
        requires seen { from ≤ length pass.old.seen }
        ensures looked { HasLooked pass.old pass.new }
        ensures copy { IfOk result (λ list. list ≡ drop from pass.new.seen) }
        ensures arrivals { IsArrivals pass.new.seen }
    {
        let mut job = CopyFrom {
            alloc: self.alloc,
            from,
        };
        self.log.with_lock(rt, &mut pass.pass, &mut job)
    }

    /// The log, from the pass that has all parts.
    pub fn finish(self, pass: LogPass) -> Log
        requires own { IsPassOf self pass }
        requires all { pass.parts ≡ self.parts }
        ensures list { result ≡ pass.seen }
        ensures own { OwnsAll pass }
        ensures arrivals { IsArrivals result }
    {
        let LogPass { pass } = pass;
        self.log.close(pass)
    }
}
