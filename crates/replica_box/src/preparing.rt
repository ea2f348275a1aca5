//! The queue of prepared events, and their records.
ghost use Rattle.std.specs.Prelude.{◌≡◌, ◌↔◌, None, Err, true, false, IsTrue, IfOk, OnOk, OnErr, slice_get};
ghost use Rattle.std.specs.Option.{MatchOption, IsSomeAnd};
ghost use Rattle.node_core.specs.Idle.{Changes};
ghost use Rattle.durable_node.specs.Log.{IsShort};
ghost use Rattle.replica_box.specs.Hosting.{record_for};
ghost use Rattle.replica_box.specs.Seats.{HasPrepared, IsIdle, IsJudgedWithMemory, IsPrepared, outcome_of};

use crate::learning::learn_event;
use crate::prepared::Prepared;
use crate::{PrepareFault, Replica, Verifier};
use durable_node::is_short;
use node_core::{Event, NodeFault};

impl Replica {
    /// Appends an event to the queue of prepared events. The event gets a record if its turn on the current state, without
    /// the events that are still in the queue, would change that state. Without a record the host logs nothing for it.
    pub fn prepare(&mut self, event: Event) -> Result<(), PrepareFault>
        ensures prepared { OnOk result (HasPrepared event self.old self.new) }
        ensures refused { OnErr result (self.new ≡ self.old) }
        ensures long { (result ≡ Err PrepareFault.Long) ↔ (¬ IsShort event) }
        ensures halted { (result ≡ Err PrepareFault.Halted) ↔ (IsShort event × IsTrue self.old.node.halted) }
    {
        self.learn(&event);
        let prepared = self.prepared(event)?;
        let digest = prepared.digest();
        match self.ready.push_back(prepared) {
            Ok(()) => {
                self.digest = digest;
                Ok(())
            }
            Err(_) => Err(PrepareFault::NoMemory),
        }
    }

    /// Lets the checker check the seals of the message that an event delivers. It remembers them, so that the turns on the
    /// message do not check them again.
    fn learn(&mut self, event: &Event)
        ensures { self.new ≡ self.old }
    {
        learn_event(&mut self.checker, self.node.view(), event);
    }

    /// Remembers the seals that a verifier keeps, if it has the public keys and the height of this replica, and returns whether
    /// it has. The turns on their message do not check them again. A host calls this before it prepares the message.
    pub fn take_verified(&mut self, verifier: &mut Verifier) -> bool
        ensures keys { IsTrue result ↔ (self.old.checker ≡ verifier.old) }
        ensures same { self.new ≡ self.old }
        ensures verifier { verifier.new ≡ verifier.old }
    {
        self.checker.take_verified(verifier)
    }

    /// The event, with a record where its turn would change the replica.
    fn prepared(&self, event: Event) -> Result<Prepared, PrepareFault>
        ensures prepared { IfOk result (λ prepared. IsPrepared event self.now prepared) }
        ensures long { (result ≡ Err PrepareFault.Long) ↔ (¬ IsShort event) }
        ensures halted { (result ≡ Err PrepareFault.Halted) ↔ (IsShort event × IsTrue self.now.node.halted) }
    {
        if !is_short(&event) {
            return Err(PrepareFault::Long);
        }
        match self.node.idle_turn(&self.checker, &event) {
            Ok(Some(_)) => Ok(Prepared::without_record(&self.digest, event)),
            Ok(None) => Ok(Prepared::with_record(self.alloc, &self.digest, event)?),
            Err(NodeFault::Halted) => Err(PrepareFault::Halted),
            Err(NodeFault::NoMemory) => Err(PrepareFault::NoMemory),
        }
    }

    /// Whether the turn on an event, made on the current state without the events that are still in the queue, would change
    /// that state. The seals of its message are checked now, and remembered for the turn. A host asks this before it counts
    /// on a block that a leader proposes.
    pub fn would_change(&mut self, event: &Event) -> Result<bool, PrepareFault>
        ensures yes { IfOk result (λ yes. yes ≡ true → Changes self.old.node.state (outcome_of self.old event.now)) }
        ensures no { IfOk result (λ yes. yes ≡ false → IsIdle self.old event.now) }
        ensures same { self.new ≡ self.old }
        ensures long { (result ≡ Err PrepareFault.Long) ↔ (¬ IsShort event.now) }
        ensures halted { (result ≡ Err PrepareFault.Halted) ↔ (IsShort event.now × IsTrue self.old.node.halted) }
        ensures memory { result ≡ Err PrepareFault.NoMemory → IsJudgedWithMemory self.old event.now }
    {
        self.learn(event);
        self.changes(event)
    }

    fn changes(&self, event: &Event) -> Result<bool, PrepareFault>
        ensures yes { IfOk result (λ yes. yes ≡ true → Changes self.now.node.state (outcome_of self.now event.now)) }
        ensures no { IfOk result (λ yes. yes ≡ false → IsIdle self.now event.now) }
        ensures long { (result ≡ Err PrepareFault.Long) ↔ (¬ IsShort event.now) }
        ensures halted { (result ≡ Err PrepareFault.Halted) ↔ (IsShort event.now × IsTrue self.now.node.halted) }
        ensures memory { result ≡ Err PrepareFault.NoMemory → IsJudgedWithMemory self.now event.now }
    {
        if !is_short(event) {
            return Err(PrepareFault::Long);
        }
        match self.node.idle_turn(&self.checker, event) {
            Ok(turned) => Ok(turned.is_none()),
            Err(NodeFault::Halted) => Err(PrepareFault::Halted),
            Err(NodeFault::NoMemory) => Err(PrepareFault::NoMemory),
        }
    }

    /// The record of a prepared event, or no bytes where it has none. Event 0 is the one that the replica acts on next.
    pub fn record(&self, at: usize) -> Option<&[u8]>
        ensures { MatchOption result (slice_get self.now.ready at ≡ None)
            (λ bytes. IsSomeAnd (slice_get self.now.ready at) (λ prepared. bytes.now ≡ record_for prepared)) }
    {
        match self.ready.get(at) {
            Some(prepared) => Some(prepared.record()),
            None => None,
        }
    }
}
