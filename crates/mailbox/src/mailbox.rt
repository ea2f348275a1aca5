ghost use Rattle.std.specs.Prelude.{◌≡◌, ℕ, vec_len, slice_get, Some, ◌^◌, ◌<◌, ◌≤◌, ◌↔◌, [], true, length, IsTrue, OnOk, IfOk, MatchOption, MatchResult};
ghost use mathlib.Core.List.{IsPrefix};
ghost use Rattle.crossbeam_queue.specs.SegTies.{IsSegPassOf, IsSameSeat};
ghost use Rattle.mailbox.specs.Boxes.{of, IsSenderOf, IsReceiverOf, sender_in, senders_in, receiver_in, sent_more, taken_more, heard_more};
ghost use Rattle.mailbox.specs.Mail.{receiver, Sent, WasEmpty};

use crate::envelope::Envelope;
use crate::passes::{SendPass, TakePass};
use crate::rule::{Compares, Deals, Gets, Mail, Notes, Post, Puts, Reports};
use crossbeam_queue::{RuledSegQueue, SegPass};
use seq_base::{NoMemory, Packet};
use std::alloc::Global;
use std::marker::Model;
use std::sync::Wait;

/// The maximum number of sends with one pass.
const MOST: u64 = 1 << 62;

/// A queue of envelopes. Contracts see the name of the mailbox and its number of senders.
pub struct Mailbox {
    queue: RuledSegQueue<Envelope, Mail, Post>,
    senders: u32,
}

impl Model for Mailbox {
    ghost use Rattle.mailbox.specs.Boxes.{Opened};

    ghost Value = { Opened };

    ghost view = { λ box. record { name = box.queue; senders = box.senders } };
}

// A pass for each sender.
fn deal(
    alloc: Global,
    queue: &RuledSegQueue<Envelope, Mail, Post>,
    first: &mut SegPass<Envelope, Mail>,
    senders: u32,
) -> Result<Vec<SendPass>, NoMemory>
    requires { IsSegPassOf queue.now first.old × (first.old.me.view.client ≡ receiver 0 [] []) }
    ensures first { OnOk result (IsSegPassOf queue.now first.new × (first.new.me.view.client ≡ receiver senders [] [])) }
    ensures senders { IfOk result (λ v. v.items ≡ senders_in queue.now 0 senders) }
{
    let mut passes = Vec::new(alloc);
    for from in 0..senders {
        let pass = queue.another::<Deals>(first);
        passes.push(SendPass {
            pass,
            from,
            count: 0,
        })?;
    }
    Ok(passes)
}

// Pushes an envelope of the sender whose pass it is, or returns its bytes.
fn push<R: Wait>(
    rt: &R,
    queue: &RuledSegQueue<Envelope, Mail, Post>,
    pass: &mut SegPass<Envelope, Mail>,
    envelope: Envelope,
) -> Result<(), Packet>
    requires own { IsSegPassOf queue.now pass.old }
    requires sends { (pass.old.me.view.client.sends ≡ true) × (pass.old.me.view.client.from ≡ envelope.from) }
    requires room { length pass.old.me.view.client.sent < 2 ^ 62 }
    ensures own { IsSegPassOf queue.now pass.new × IsSameSeat pass.old pass.new }
    ensures sent { MatchResult result (λ _. Sent pass.old.me.view.client envelope pass.new.me.view.client)
        (λ back. (back ≡ envelope.bytes) × (pass.new.me.view.client ≡ pass.old.me.view.client)) }
{
    match queue.push_as::<Puts, R>(rt, pass, envelope) {
        Ok(()) => Ok(()),
        Err(envelope) => {
            let Envelope { from: _, bytes } = envelope;
            Err(bytes)
        }
    }
}

impl Mailbox {
    /// An empty mailbox, a pass for each sender in the order of their numbers, and the receiver's pass.
    #[tactic(auto, using(crate::proofs::Posts::dealt_each, crate::proofs::Posts::dealt_count))]
    pub fn start(
        alloc: Global,
        senders: u32,
    ) -> Result<(Mailbox, Vec<SendPass>, TakePass), NoMemory>
        requires { (1 ≤ senders) × (senders ≤ 16) }
        ensures senders { IfOk result (λ r. r.0.senders ≡ senders) }
        ensures count { IfOk result (λ r. vec_len r.1 ≡ senders) }
        ensures each { IfOk result (λ r. (i : ℕ) → i < senders → slice_get r.1.items i ≡ Some (sender_in r.0.name i)) }
        ensures take { IfOk result (λ r. r.2 ≡ receiver_in r.0 []) }
    {
        let counts = Vec::from_elem(alloc, 0u64, senders as usize)?;
        let (queue, mut pass) = RuledSegQueue::with_rule(alloc)?;
        match deal(alloc, &queue, &mut pass, senders) {
            Ok(passes) => Ok((
                Mailbox { queue, senders },
                passes,
                TakePass { pass, counts },
            )),
            Err(_) => {
                queue.destroy();
                Err(NoMemory)
            }
        }
    }

    /// Puts the bytes into the mailbox. They are returned when out of memory, or after 2^62 sends.
    pub fn send<R: Wait>(&self, rt: &R, pass: &mut SendPass, bytes: Packet) -> Result<(), Packet>
        requires { IsSenderOf self.now pass.old }
        ensures { MatchResult result (λ _. pass.new ≡ sent_more pass.old bytes) (λ back. (back ≡ bytes) × (pass.new ≡ pass.old)) }
    {
        if pass.count >= MOST {
            return Err(bytes);
        }
        let from = pass.from;
        push(rt, &self.queue, &mut pass.pass, Envelope { from, bytes })?;
        pass.count += 1;
        Ok(())
    }

    /// Informs the receiver of what this sender has sent so far. It takes no memory.
    pub fn hear(&self, pass: &mut TakePass, sender: &mut SendPass)
        requires receiver { IsReceiverOf self.now pass.old }
        requires sender { IsSenderOf self.now sender.old }
        ensures { (pass.new ≡ heard_more pass.old sender.old) × (sender.new ≡ sender.old) }
    {
        let tale = self.queue.another::<Reports>(&mut sender.pass);
        self.queue.absorb::<Reports>(&mut pass.pass, tale);
    }

    /// The oldest envelope, or None where the mailbox was empty at some step of this call. Then all that the receiver
    /// had been informed of before was received. It takes no memory.
    pub fn take<R: Wait>(&self, rt: &R, pass: &mut TakePass) -> Option<Envelope>
        requires { IsReceiverOf self.now pass.old }
        ensures { MatchOption result ((pass.new ≡ pass.old) × WasEmpty pass.old) (λ e. (pass.new ≡ taken_more pass.old e) × (e.from < self.now.senders)) }
    {
        let envelope = self.queue.pop_as::<Gets, R>(rt, &mut pass.pass)?;
        pass.counts[envelope.from as usize] += 1;
        Some(envelope)
    }

    /// Whether all that this sender sent was received. Afterwards what was received from it is known to be a prefix
    /// of what it sent. It takes no memory.
    pub fn all_taken<R: Wait>(&self, rt: &R, pass: &mut TakePass, sender: &mut SendPass) -> bool
        requires receiver { IsReceiverOf self.now pass.old }
        requires sender { IsSenderOf self.now sender.old }
        ensures same { (pass.new ≡ pass.old) × (sender.new ≡ sender.old) }
        ensures prefix { IsPrefix (of sender.old.from pass.old.taken) sender.old.sent }
        ensures all { IsTrue result ↔ (of sender.old.from pass.old.taken ≡ sender.old.sent) }
    {
        let note = self.queue.another::<Notes>(&mut pass.pass);
        self.queue.absorb::<Notes>(&mut sender.pass, note);
        self.queue.len_as::<Compares, R>(rt, &mut sender.pass);
        pass.counts[sender.from as usize] == sender.count
    }
}

impl Drop for Mailbox {
    fn drop(self) {
        let Mailbox { queue, senders: _ } = self;
        queue.destroy();
    }
}
