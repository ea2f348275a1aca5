//! One replica of a run: its node, what arrives at it, its journal, and its links.

ghost use Rattle.std.specs.Prelude.{◌≡◌, ◌++◌, ◌∷◌, [], IfOk, OnOk};
ghost use Rattle.fault_script.specs.Passing.{given_by, passed};
ghost use Rattle.node_core.specs.Readable.{IsReadable};
ghost use Rattle.node_core.specs.Turn.{turn_of};
ghost use Rattle.replica_seat.specs.Feed.{after_giving, arrived};
ghost use Rattle.replica_seat.specs.Seats.{holds_due, meaning, replica_of};
ghost use Rattle.replica_seat.specs.Acting.{after_event, deeds_acted, enveloped, sent, sent_all, reported_after, way};

use crate::arrivals::Feed;
use crate::pool::Pool;
use fault_script::{LinkState, twist};
use node_core::{Entry, Event, Node, Turned};
use plan_text::Plan;
use run_record::holds_all;
use seal_kit::{Checker, Sealer};
use seq_base::{NoMemory, Outgoing, Outgoings, Packet, TxList};
use std::alloc::Global;
use std::collections::VecDeque;
use std::marker::Model;

/// An envelope in transit.
#[derive(Drop)]
pub struct Envelope {
    pub from: u32,
    pub to: u32,
    pub bytes: Packet,
}

/// One replica of a run.
#[derive(Drop)]
pub struct Seat<S: Sealer> {
    pub node: Node<S>,
    pub feed: Feed,
    pub journal: Vec<Entry>,
    /// Its links to each replica.
    pub links: Vec<LinkState>,
}

impl<S: Sealer> Model for Seat<S> {
    ghost use Rattle.replica_seat.specs.Seats.{AreReadable, Seated};

    ghost Value = { Seated S };

    ghost view = { λ a. record { node = a.node; feed = a.feed; journal = a.journal.items; links = a.links.items } };

    ghost invariant = { λ a. AreReadable a.journal.items };
}

impl<S: Sealer> Seat<S> {
    /// One event of the replica at a place: its turn, its sends over its links, and its entry.
    #[tactic(auto, using(crate::proofs::SendSteps::reported_event))]
    pub fn process<C: Checker>(
        &mut self,
        alloc: Global,
        plan: &Plan,
        checker: &C,
        at: u32,
        event: Event,
        pool: &mut Pool,
        queue: &mut VecDeque<Envelope>,
    ) -> Result<(), NoMemory>
        ensures { OnOk result (after_event (C.meaning checker.now) plan.now at (replica_of (meaning S.replica S.gives) self.old) queue.old.items event
            ≡ record { replica = replica_of (meaning S.replica S.gives) self.new; queue = queue.new.items }) }
    {
        let turned = self.turn(checker, &event, pool)?;
        let turned = self.after_deeds(alloc, plan, at, turned)?;
        self.send(queue, at, turned.sends.as_slice())?;
        self.note(event, turned)
    }

    /// One turn of the node.
    fn turn<C: Checker>(
        &mut self,
        checker: &C,
        event: &Event,
        pool: &mut Pool,
    ) -> Result<Turned, NoMemory>
        ensures reported { IfOk result (λ t. turn_of (C.meaning checker.now) (S.gives self.old.node.sealer) self.old.node.state event.now
            ≡ record { reported = t; state = self.new.node.state }) }
        ensures readable { OnOk result (IsReadable event.now) }
        ensures rest { replica_of (meaning S.replica S.gives) self.new
            ≡ record (replica_of (meaning S.replica S.gives) self.old) { state = self.new.node.state } }
    {
        match self.node.turn(checker, event) {
            Ok(turned) => pool.pooled_turn(turned),
            Err(_) => Err(NoMemory),
        }
    }

    /// The output of a turn. The sends of a faulty replica go through its deeds.
    fn after_deeds(
        &mut self,
        alloc: Global,
        plan: &Plan,
        at: u32,
        turned: Turned,
    ) -> Result<Turned, NoMemory>
        ensures { IfOk result (λ t. reported_after plan.now at (replica_of (meaning S.replica S.gives) self.old)
            (record { reported = turned; state = self.old.node.state })
            ≡ record { reported = t; replica = replica_of (meaning S.replica S.gives) self.new }) }
    {
        if plan.faulty.has(at) {
            self.twisted(alloc, plan, turned)
        } else {
            Ok(turned)
        }
    }

    /// The output of a turn, with its sends replaced by those that the deeds make of them.
    fn twisted(
        &mut self,
        alloc: Global,
        plan: &Plan,
        mut turned: Turned,
    ) -> Result<Turned, NoMemory>
        ensures { IfOk result
            (λ t. deeds_acted plan.now (replica_of (meaning S.replica S.gives) self.old) (record { reported = turned; state = self.old.node.state })
            ≡ record { reported = t; replica = replica_of (meaning S.replica S.gives) self.new }) }
    {
        let sends = turned.take_sends(alloc);
        let deeds = plan.deeds.as_slice();
        let sealer = self.node.sealer_mut();
        let sends = twist(alloc, deeds, &plan.setting, sealer, sends)?;
        turned.sends = Outgoings::of(sends);
        Ok(turned)
    }

    /// The sends go over the replica's links to the end of the queue.
    fn send(
        &mut self,
        queue: &mut VecDeque<Envelope>,
        at: u32,
        sends: &[Outgoing],
    ) -> Result<(), NoMemory>
        ensures sent { OnOk result (sent_all at (way self.old.links queue.old.items) sends.now ≡ way self.new.links queue.new.items) }
        ensures rest { self.new ≡ record self.old { links = self.new.links } }
    {
        send_all(self.links.as_mut_slice(), queue, at, sends)
    }

    /// An entry is appended to the journal.
    fn note(&mut self, event: Event, turned: Turned) -> Result<(), NoMemory>
        requires { IsReadable event }
        ensures { OnOk result (self.new ≡ record self.old { journal = self.old.journal ++ record { event = event; turned = turned } ∷ [] }) }
    {
        self.journal.push(Entry { event, turned })?;
        Ok(())
    }

    /// The replica continues with another node.
    pub fn go_on_with(&mut self, node: Node<S>)
        ensures { self.new ≡ record self.old { node = node } }
    {
        self.node = node;
    }

    /// Gives what arrived by a count of turns and was not given yet.
    pub fn take_arrived(&mut self, alloc: Global, turns: u32) -> Result<TxList, NoMemory>
        ensures arrived { IfOk result (λ list. list ≡ arrived turns self.old.feed) }
        ensures taken { OnOk result (self.new ≡ record self.old { feed = after_giving turns self.old.feed }) }
        ensures same { self.new.node ≡ self.old.node }
    {
        self.feed.take_until(alloc, turns)
    }

    /// Whether the final batches contain every due transaction.
    #[tactic(auto, unfolding(crate::specs::Seats::holds_due))]
    pub fn holds_due(&self, alloc: Global, due: &TxList) -> Result<bool, NoMemory>
        ensures { IfOk result (λ holds. holds ≡ holds_due due.now self.now.node.state.known) }
    {
        holds_all(alloc, &self.node.finals()?, due)
    }
}

/// Appends the sends of a turn to the queue, each through its link.
#[tactic(auto, unfolding(crate::specs::Acting::sent_all))]
fn send_all(
    links: &mut [LinkState],
    queue: &mut VecDeque<Envelope>,
    from: u32,
    sends: &[Outgoing],
) -> Result<(), NoMemory>
    ensures { OnOk result (sent_all from (way links.old queue.old.items) sends.now
        ≡ way links.new queue.new.items) }
{
    for send in sends {
        send_one(links, queue, from, send)?;
    }
    Ok(())
}

/// One send goes through its link, if there is one.
#[tactic(auto, using(crate::proofs::SendSteps::sent_over_one, crate::proofs::SendSteps::sent_over_none))]
fn send_one(
    links: &mut [LinkState],
    queue: &mut VecDeque<Envelope>,
    from: u32,
    send: &Outgoing,
) -> Result<(), NoMemory>
    ensures { OnOk result (sent from (way links.old queue.old.items) send.now ≡ way links.new queue.new.items) }
{
    let to = send.to as usize;
    if to >= links.len() {
        return Ok(());
    }
    send_over(&mut links[to], queue, from, send)
}

/// Appends what the link gives for one send to the queue.
fn send_over(
    link: &mut LinkState,
    queue: &mut VecDeque<Envelope>,
    from: u32,
    send: &Outgoing,
) -> Result<(), NoMemory>
    ensures passed { OnOk result (link.new ≡ passed link.old send.now.bytes) }
    ensures given { OnOk result (queue.new.items ≡ queue.old.items ++ enveloped from send.now.to (given_by link.old send.now.bytes)) }
{
    let given = link.pass(send.bytes.share()?)?;
    put_all(queue, from, send.to, given)
}

/// Appends envelopes with these bytes to the queue.
fn put_all(
    queue: &mut VecDeque<Envelope>,
    from: u32,
    to: u32,
    given: Vec<Packet>,
) -> Result<(), NoMemory>
    ensures { OnOk result (queue.new.items ≡ queue.old.items ++ enveloped from to given.items) }
{
    for bytes in given {
        queue.push_back(Envelope { from, to, bytes })?;
    }
    Ok(())
}
