//! The worker of one replica.

ghost use Rattle.std.specs.Prelude.{◌≡◌, ◌+◌, ◌<◌, ◌≤◌, Some, None, true, false, get_or, IfOk, OnOk};
ghost use Rattle.std.specs.List.{AllZip};
ghost use mathlib.Core.List.{IsPrefix};
ghost use Rattle.locked_log.specs.History.{HasLooked, IsPassOf, Opened};
ghost use Rattle.mailbox.specs.Boxes.{IsSenderOf, sent_more};
ghost use Rattle.replica_seat.specs.Seats.{meaning};
ghost use Rattle.node_core.specs.declared.event.Event.TheVariants.{Arrived, Deliver, Tick};
ghost use Rattle.round_rules.specs.Rounds.{tick_of};
ghost use Rattle.thread_run.specs.Workers.{Belongs, Did, Drains, Heard, Takes, Reported, Works, posted, posted_one};

use crate::world::World;
use arrival_log::LogPass;
use mailbox::{Mailbox, SendPass, TakePass};
use node_core::Event;
use plan_text::Plan;
use replica_seat::{Envelope, Pool, Seat};
use seal_kit::{Checker, Sealer};
use seq_base::{NoMemory, Packet};
use std::alloc::Global;
use std::collections::VecDeque;
use std::marker::Model;
use std::sync::Wait;

/// The worker of a replica: its node with journal and links, its pass of the log, and its passes of the mailboxes.
#[derive(Drop)]
pub(crate) struct Worker<S: Sealer> {
    pub(crate) alloc: Global,
    pub(crate) at: u32,
    pub(crate) seat: Seat<S>,
    pub(crate) pool: Pool,
    pub(crate) log: LogPass,
    /// How many transactions the node knows.
    pub(crate) known: u32,
    pub(crate) take: TakePass,
    /// A pass for the mailbox of each replica.
    pub(crate) sends: Vec<SendPass>,
    /// How many envelopes were delivered.
    pub(crate) turns: u32,
    /// Whether memory ran out.
    pub(crate) failed: bool,
}

impl<S: Sealer> Model for Worker<S> {
    ghost use Rattle.thread_run.specs.Workers.{Working};

    ghost Value = { Working S };

    ghost view = { λ w. record {
      at = w.at;
      seat = w.seat;
      log = w.log;
      known = w.known;
      take = w.take;
      sends = w.sends.items;
      turns = w.turns;
      failed = w.failed;
    } };
}

impl<S: Sealer> Worker<S> {
    /// One round: the tick, if there is one, and then at most `most` deliveries, with a look at the log before each.
    /// The round ends early only where the mailbox was empty. Then everything that the worker was informed of before
    /// the round was received.
    pub(crate) fn round<C: Checker, R: Wait>(
        &mut self,
        rt: &R,
        world: &World,
        plan: &Plan,
        checker: &C,
        tick: Option<u32>,
        most: u32,
    )
        // The passes are of these logs and mailboxes, and the count of turns has room.
        requires belongs { Belongs world.now.logs.items world.now.boxes.items self.old }
        requires room { self.old.turns + 32 < 4294967296 }
        requires few { most ≤ 32 }
        // What the worker did, unless memory ran out.
        ensures works { self.new.failed ≡ false → Works (C.meaning checker.now) plan.now (meaning S.replica S.gives) tick self.old self.new }
        ensures few { self.new.failed ≡ false → self.new.turns ≤ self.old.turns + most }
        ensures drains { self.new.failed ≡ false → Drains most self.old self.new }
        ensures belongs { self.new.failed ≡ false → Belongs world.now.logs.items world.now.boxes.items self.new }
    {
        if self.work(rt, world, plan, checker, tick, most).is_err() {
            self.failed = true;
        }
    }

    /// Informs its pass of its log of all that another pass has seen, and the other pass of all that its own has seen.
    pub(crate) fn listen(&mut self, world: &World, driver: &mut LogPass)
        // Both passes are of the worker's log.
        requires belongs { Belongs world.now.logs.items world.now.boxes.items self.old }
        requires driver { (d : Opened) → IsPassOf (get_or world.now.logs.items self.old.at d) driver.old }
        requires parts { 2 ≤ driver.old.parts }
        // Nothing but the pass of the log changes, and it has seen what the other had seen.
        ensures rest { self.new ≡ record self.old { log = self.new.log } }
        ensures looked { HasLooked self.old.log self.new.log }
        ensures reported { IsPrefix driver.old.seen self.new.log.seen }
        // The other pass has seen what this one has seen.
        ensures heard { HasLooked driver.old driver.new }
        ensures back { IsPrefix self.new.log.seen driver.new.seen }
        // The passes are of these logs and mailboxes.
        ensures belongs { Belongs world.now.logs.items world.now.boxes.items self.new }
    {
        world.logs[self.at as usize].report(driver, &mut self.log)
    }

    fn work<C: Checker, R: Wait>(
        &mut self,
        rt: &R,
        world: &World,
        plan: &Plan,
        checker: &C,
        tick: Option<u32>,
        most: u32,
    ) -> Result<(), NoMemory>
        // The passes are of these logs and mailboxes, and the count of turns has room.
        requires belongs { Belongs world.now.logs.items world.now.boxes.items self.old }
        requires room { self.old.turns + 32 < 4294967296 }
        requires few { most ≤ 32 }
        // What the worker did.
        ensures works { OnOk result (Works (C.meaning checker.now) plan.now (meaning S.replica S.gives) tick self.old self.new) }
        ensures few { OnOk result (self.new.turns ≤ self.old.turns + most) }
        ensures drains { OnOk result (Drains most self.old self.new) }
        ensures belongs { OnOk result (Belongs world.now.logs.items world.now.boxes.items self.new) }
    {
        self.begin(rt, world, plan, checker, tick)?;
        self.hear(rt, world, plan, checker)?;
        for step in 0..most {
            if !self.take(rt, world, plan, checker)? {
                return Ok(());
            }
            self.hear(rt, world, plan, checker)?;
        }
        Ok(())
    }

    /// Makes the tick, if there is one.
    #[tactic(auto, using(crate::proofs::WorkDone::did_tick, crate::proofs::WorkDone::did_nothing))]
    fn begin<C: Checker, R: Wait>(
        &mut self,
        rt: &R,
        world: &World,
        plan: &Plan,
        checker: &C,
        tick: Option<u32>,
    ) -> Result<(), NoMemory>
        requires { Belongs world.now.logs.items world.now.boxes.items self.old }
        ensures did { OnOk result (Did (C.meaning checker.now) plan.now (meaning S.replica S.gives) (tick_of tick) self.old self.new) }
        ensures news { OnOk result (self.new.take.heard ≡ self.old.take.heard) }
        ensures belongs { OnOk result (Belongs world.now.logs.items world.now.boxes.items self.new) }
    {
        match tick {
            Some(floor) => self.process(rt, world, plan, checker, Event::Tick { floor }),
            None => Ok(()),
        }
    }

    /// Gives the node the entries of the log after those that it knows.
    fn hear<C: Checker, R: Wait>(
        &mut self,
        rt: &R,
        world: &World,
        plan: &Plan,
        checker: &C,
    ) -> Result<(), NoMemory>
        requires { Belongs world.now.logs.items world.now.boxes.items self.old }
        ensures did { OnOk result (Heard (C.meaning checker.now) plan.now (meaning S.replica S.gives) self.old self.new) }
        ensures belongs { OnOk result (Belongs world.now.logs.items world.now.boxes.items self.new) }
    {
        let log = &world.logs[self.at as usize];
        let list = log.snapshot(rt, &mut self.log, self.known)?;
        if list.as_slice().is_empty() {
            return Ok(());
        }
        let count = list.as_slice().len() as u32;
        self.process(rt, world, plan, checker, Event::Arrived(list))?;
        self.known += count;
        Ok(())
    }

    /// Receives an envelope and delivers it. Returns whether there was one.
    fn take<C: Checker, R: Wait>(
        &mut self,
        rt: &R,
        world: &World,
        plan: &Plan,
        checker: &C,
    ) -> Result<bool, NoMemory>
        requires belongs { Belongs world.now.logs.items world.now.boxes.items self.old }
        requires room { self.old.turns < 4294967295 }
        ensures did { IfOk result (λ more. Takes (C.meaning checker.now) plan.now (meaning S.replica S.gives) more self.old self.new) }
        ensures belongs { OnOk result (Belongs world.now.logs.items world.now.boxes.items self.new) }
    {
        let inbox = &world.boxes[self.at as usize];
        let Some(letter) = inbox.take(rt, &mut self.take) else {
            return Ok(false);
        };
        let from = letter.from;
        let bytes = self.pool.pooled(letter.bytes)?;
        self.process(rt, world, plan, checker, Event::Deliver { from, bytes })?;
        self.turns += 1;
        Ok(true)
    }

    /// One event: the turn and its journal entry. Then the envelopes that it sends go over the links into the
    /// mailboxes.
    fn process<C: Checker, R: Wait>(
        &mut self,
        rt: &R,
        world: &World,
        plan: &Plan,
        checker: &C,
        event: Event,
    ) -> Result<(), NoMemory>
        requires { AllZip IsSenderOf world.now.boxes.items self.old.sends }
        ensures reported { OnOk result (Reported (C.meaning checker.now) plan.now (meaning S.replica S.gives) event self.old self.new) }
        ensures own { OnOk result (AllZip IsSenderOf world.now.boxes.items self.new.sends) }
    {
        let mut outbox = VecDeque::new(self.alloc);
        self.seat.process(
            self.alloc,
            plan,
            checker,
            self.at,
            event,
            &mut self.pool,
            &mut outbox,
        )?;
        post_all(rt, &world.boxes, self.sends.as_mut_slice(), outbox)
    }
}

/// Puts each envelope into the mailbox of its receiver.
#[tactic(auto, using(crate::proofs::Posts::posted_nil, crate::proofs::Posts::posted_cons))]
fn post_all<R: Wait>(
    rt: &R,
    boxes: &[Mailbox],
    sends: &mut [SendPass],
    outbox: VecDeque<Envelope>,
) -> Result<(), NoMemory>
    requires { AllZip IsSenderOf boxes.now sends.old }
    ensures posted { OnOk result (sends.new ≡ posted sends.old outbox.items) }
    ensures own { AllZip IsSenderOf boxes.now sends.new }
{
    let mut outbox = outbox;
    'left: while let Some(envelope) = outbox.pop_front() {
        post(rt, boxes, sends, envelope)?;
    }
    Ok(())
}

/// Puts an envelope into the mailbox of its receiver, if there is one.
fn post<R: Wait>(
    rt: &R,
    boxes: &[Mailbox],
    sends: &mut [SendPass],
    envelope: Envelope,
) -> Result<(), NoMemory>
    requires { AllZip IsSenderOf boxes.now sends.old }
    ensures posted { OnOk result (sends.new ≡ posted_one sends.old envelope) }
    ensures own { AllZip IsSenderOf boxes.now sends.new }
{
    let to = envelope.to as usize;
    if to >= sends.len() || to >= boxes.len() {
        return Ok(());
    }
    send(rt, &boxes[to], &mut sends[to], envelope.bytes)
}

/// Puts the bytes into a mailbox.
fn send<R: Wait>(
    rt: &R,
    inbox: &Mailbox,
    pass: &mut SendPass,
    bytes: Packet,
) -> Result<(), NoMemory>
    requires { IsSenderOf inbox.now pass.old }
    ensures sent { OnOk result (pass.new ≡ sent_more pass.old bytes) }
    ensures own { IsSenderOf inbox.now pass.new }
{
    match inbox.send(rt, pass, bytes) {
        Ok(()) => Ok(()),
        Err(_) => Err(NoMemory),
    }
}
