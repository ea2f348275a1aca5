//! Turns on prepared events, and what they give.
ghost use Rattle.std.specs.Prelude.{◌≡◌, ◌≢◌, [], None, Err, true, false, IfOk, IfErr, IfNone, IfSome, OnOk, OnErr};
ghost use Rattle.node_core.specs.Idle.{Changes};
ghost use Rattle.replica_box.specs.Acting.{Acts, FirstHasRecord};
ghost use Rattle.replica_box.specs.Seats.{CanRunOut, HasTurned, IsJudgedWithMemory, gives_of, outcome_of};

use crate::prepared::Prepared;
use crate::{ActFault, Replica};
use node_core::{NodeFault, Reason, Statements, Turned};
use seq_base::{Bytes, Outgoing};
use std::alloc::Global;
use std::mem;

impl Replica {
    /// Makes the turn on the oldest prepared event. If the event has a record, the host makes it durable before this call;
    /// nothing checks that. After [`ActFault::Halted`] no later turn succeeds: reopen the replica from its log.
    /// After [`ActFault::Again`] the event is no longer prepared: it had no record, but its turn would change the replica
    /// now, so the host prepares it again. After [`ActFault::NoMemory`] nothing has changed.
    pub fn act(&mut self) -> Result<Reason, ActFault>
        ensures { Acts result self.old self.new }
    {
        match self.ready.front() {
            None => Err(ActFault::Unready),
            Some(first) if first.has_record() => self.act_logged(),
            Some(_) => self.act_unlogged(),
        }
    }

    /// The turn on the event that was prepared first, where it has a record.
    fn act_logged(&mut self) -> Result<Reason, ActFault>
        requires { FirstHasRecord true self.old }
        ensures { Acts result self.old self.new }
    {
        match self.ready.pop_front() {
            None => Err(ActFault::Unready),
            Some(prepared) => self.turn(&prepared),
        }
    }

    /// The turn on an event with a record. What it gives takes the place of what the last turn gave.
    fn turn(&mut self, prepared: &Prepared) -> Result<Reason, ActFault>
        requires { prepared.now.has_record ≡ true }
        // The turn that was made.
        ensures turned { IfOk result (λ reason. HasTurned prepared.now self.old.ready reason self.old self.new) }
        // It fails exactly where the node is halted then: what the last turn gave stays, and a node that was running ran
        // out of memory.
        ensures cause { IfErr result (λ fault. fault ≡ ActFault.Halted) }
        ensures running { OnOk result ((self.old.node.halted ≡ false) × (self.new.node.halted ≡ false)) }
        ensures halted { OnErr result (self.new.node.halted ≡ true) }
        ensures given { OnErr result ((self.new.sealed ≡ self.old.sealed) × (self.new.sends ≡ self.old.sends) × (self.new.digest ≡ self.old.digest)) }
        ensures memory { OnErr result (self.old.node.halted ≡ false → CanRunOut self.old prepared.now.event) }
        // What every turn leaves as it was.
        ensures checker { self.new.checker ≡ self.old.checker }
        ensures header { self.new.header ≡ self.old.header }
        ensures desk { self.new.desk ≡ self.old.desk }
        ensures gives { gives_of self.new ≡ gives_of self.old }
        ensures rest { self.new.ready ≡ self.old.ready }
    {
        match self.node.turn(&self.checker, prepared.event()) {
            Ok(turned) => Ok(self.take(turned)),
            Err(_) => Err(ActFault::Halted),
        }
    }

    /// The turn on the event that was prepared first, where it has no record.
    fn act_unlogged(&mut self) -> Result<Reason, ActFault>
        requires { FirstHasRecord false self.old }
        ensures { Acts result self.old self.new }
    {
        let Some(first) = self.ready.front() else {
            return Err(ActFault::Unready);
        };
        let foreseen = self.foreseen(first)?;
        drop(self.ready.pop_front());
        match foreseen {
            Some(turned) => Ok(self.take(turned)),
            None => Err(ActFault::Again),
        }
    }

    /// What the turn on an event answers, where it changes nothing.
    fn foreseen(&self, prepared: &Prepared) -> Result<Option<Turned>, ActFault>
        ensures idle { IfOk result
            (λ t. IfSome t (λ reported. outcome_of self.now prepared.now.event ≡ record { reported = reported; state = self.now.node.state })) }
        ensures unsealed { IfOk result (λ t. IfSome t (λ reported. reported.sealed ≡ [])) }
        ensures changes { IfOk result (λ t. IfNone t (Changes self.now.node.state (outcome_of self.now prepared.now.event))) }
        ensures running { OnOk result (self.now.node.halted ≡ false) }
        ensures halted { result ≡ Err ActFault.Halted → self.now.node.halted ≡ true }
        ensures refused { result ≡ Err ActFault.NoMemory → self.now.node.halted ≡ false }
        ensures memory { result ≡ Err ActFault.NoMemory → IsJudgedWithMemory self.now prepared.now.event }
        ensures cause { (result ≢ Err ActFault.Unready) × (result ≢ Err ActFault.Again) }
    {
        match self.node.idle_turn(&self.checker, prepared.event()) {
            Ok(turned) => Ok(turned),
            Err(NodeFault::Halted) => Err(ActFault::Halted),
            Err(NodeFault::NoMemory) => Err(ActFault::NoMemory),
        }
    }

    /// What a turn gave takes the place of what the last turn gave.
    fn take(&mut self, turned: Turned) -> Reason
        ensures reason { result ≡ turned.reason }
        ensures taken { self.new ≡ record self.old { sealed = turned.sealed; sends = turned.sends } }
    {
        let mut turned = turned;
        self.sends = turned.take_sends(self.alloc);
        self.sealed = taken(self.alloc, &mut turned.sealed);
        turned.reason
    }

    /// The messages that the last turn sends, in their order.
    pub fn sends(&self) -> &[Outgoing]
        ensures { result.now ≡ self.now.sends }
    {
        self.sends.as_slice()
    }

    /// The statements that the last turn sealed, in their order.
    pub fn sealed(&self) -> &[Bytes]
        ensures { result.now ≡ self.now.sealed }
    {
        self.sealed.as_slice()
    }
}

/// The statements, of which none are left.
fn taken(alloc: Global, statements: &mut Statements) -> Statements
    ensures { result ≡ statements.old }
{
    mem::replace(statements, Statements::of(Vec::new(alloc)))
}
