//! One link: what it gives for what is sent on it.
ghost use Rattle.std.specs.Prelude.{◌≡◌, ◌≤◌, ◌+◌, IfOk, ◌++◌, OnErr, OnOk, length, vec_capacity, vec_len};
ghost use Rattle.std.specs.BTreeMap.{insert_entry};
ghost use Rattle.fault_script.specs.Links.{at_own_place, flipped};
ghost use Rattle.fault_script.specs.Passing.{after_due, due_cmp, due_of, fault_in, first_due, given_by, held_with, left_of, most_sends, next_number, opening, passed};

use plan_text::{LinkFault, LinkKind};
use seq_base::{Bytes, NoMemory, Packet};
use std::alloc::Global;
use std::collections::BTreeMap;
use std::marker::Model;

/// Sends beyond this number are no longer counted: no script names one of them, or holds one that long.
const LAST_NUMBER: u64 = 1 << 33;

/// The link from one replica to another: its script, how many sends it has seen, and the envelopes that it holds.
pub struct LinkState {
    alloc: Global,
    /// The faults by the number of the send.
    script: BTreeMap<u64, LinkKind>,
    sent: u64,
    /// The held envelopes, by the send after which each is given, then by its own number.
    held: BTreeMap<(u64, u64), Packet>,
}

impl Drop for LinkState {
    fn drop(self) {
        let LinkState {
            alloc: _,
            script: _,
            sent: _,
            held: _,
        } = self;
    }
}

impl Model for LinkState {
    ghost use Rattle.std.specs.Prelude.{◌≤◌};
    ghost use Rattle.fault_script.specs.Passing.{Link, most_sends};

    ghost Value = { Link };

    ghost view = { λ link. record { script = link.script.entries; sent = link.sent; held = link.held.entries } };

    ghost invariant = { λ link. link.sent ≤ most_sends };
}

impl LinkState {
    /// The link between two replicas before its first send. Only the faults of this link count; of two faults for the
    /// same send, only the last.
    #[tactic(auto, unfolding(crate::specs::Passing::opening))]
    pub fn new(
        alloc: Global,
        links: &[LinkFault],
        from: u32,
        to: u32,
    ) -> Result<LinkState, NoMemory>
        ensures { IfOk result (λ link. link ≡ opening links.now from to) }
    {
        let mut script = BTreeMap::new(alloc);
        for link in links {
            if link.from == from && link.to == to {
                script.insert(u64::from(link.number), link.kind)?;
            }
        }
        Ok(LinkState {
            alloc,
            script,
            sent: 0,
            held: BTreeMap::new(alloc),
        })
    }

    /// What the link gives for the next send: the send itself as its fault says, followed by the held envelopes whose
    /// time has come, in the order in which they were sent. If memory runs out, the send is not counted and the link is
    /// unchanged.
    #[tactic(auto, unfolding(crate::specs::Passing::given_by, crate::specs::Passing::passed))]
    pub fn pass(&mut self, bytes: Packet) -> Result<Vec<Packet>, NoMemory>
        ensures given { IfOk result (λ given. given.items ≡ given_by self.old bytes) }
        ensures after { OnOk result (self.new ≡ passed self.old bytes) }
        ensures err { OnErr result (self.new ≡ self.old) }
    {
        let number = self.next_number();
        let mut given = self.place(number, bytes)?;
        self.sent = number;
        self.give_due(&mut given);
        Ok(given)
    }

    /// The number of the next send.
    fn next_number(&self) -> u64
        ensures { result ≡ next_number self.now }
    {
        (self.sent + 1).min(LAST_NUMBER)
    }

    /// What is given of a send at its own place, with room for all that may follow. A send that is held is stored. All
    /// the memory that a send needs is allocated here.
    fn place(&mut self, number: u64, bytes: Packet) -> Result<Vec<Packet>, NoMemory>
        requires { number ≤ most_sends }
        ensures given { IfOk result (λ given. given.items ≡ at_own_place (fault_in self.old.script number) bytes) }
        ensures room { IfOk result (λ given. vec_len given + length self.new.held ≤ vec_capacity given) }
        ensures held { OnOk result (self.new ≡ record self.old { held = held_with (fault_in self.old.script number) number bytes self.old.held }) }
        ensures err { OnErr result (self.new ≡ self.old) }
    {
        match self.fault(number) {
            Some(LinkKind::Hold(count)) => {
                let given = Vec::with_capacity(self.alloc, self.held.len() + 1)?;
                self.hold(number, count, bytes)?;
                Ok(given)
            }
            fault => {
                let mut given = given_at_once(self.alloc, fault, bytes)?;
                given.reserve(self.held.len())?;
                Ok(given)
            }
        }
    }

    /// The fault of the send with a number.
    fn fault(&self, number: u64) -> Option<LinkKind>
        ensures { result ≡ fault_in self.now.script number }
    {
        self.script.get(&number).copied()
    }

    /// Holds the envelope with a number for this many sends.
    fn hold(&mut self, number: u64, count: u32, bytes: Packet) -> Result<(), NoMemory>
        requires { number ≤ most_sends }
        ensures ok { OnOk result (self.new ≡ record self.old { held = insert_entry due_cmp self.old.held (number + count, number) bytes }) }
        ensures one { length self.new.held ≤ length self.old.held + 1 }
        ensures err { OnErr result (self.new ≡ self.old) }
    {
        self.held
            .insert((number + u64::from(count), number), bytes)?;
        Ok(())
    }

    /// Gives the held envelopes whose place is reached. There is room for them.
    fn give_due(&mut self, given: &mut Vec<Packet>)
        requires { vec_len given.old + length self.old.held ≤ vec_capacity given.old }
        ensures given { given.new.items ≡ given.old.items ++ due_of self.old.sent self.old.held }
        ensures left { self.new ≡ record self.old { held = left_of self.old.sent self.old.held } }
    {
        while let Some(bytes) = self.take_due() {
            let _is_given = given.push(bytes).is_ok();
        }
    }

    fn take_due(&mut self) -> Option<Packet>
        ensures taken { result ≡ first_due self.old.sent self.old.held }
        ensures left { self.new ≡ record self.old { held = after_due self.old.sent self.old.held } }
    {
        let (place, _) = self.held.first_key_value()?.0;
        if *place > self.sent {
            return None;
        }
        let (_, bytes) = self.held.pop_first()?;
        Some(bytes)
    }
}

/// What is given of a send at its own place.
fn given_at_once(
    alloc: Global,
    fault: Option<LinkKind>,
    bytes: Packet,
) -> Result<Vec<Packet>, NoMemory>
    ensures { IfOk result (λ given. given.items ≡ at_own_place fault bytes) }
{
    let mut given = Vec::new(alloc);
    match fault {
        None => given.push(bytes)?,
        Some(LinkKind::Twice) => {
            given.push(bytes.share()?)?;
            given.push(bytes)?;
        }
        Some(LinkKind::Garble) => given.push(garbled(alloc, &bytes)?)?,
        Some(LinkKind::Lose) | Some(LinkKind::Hold(_)) => {}
    }
    Ok(given)
}

/// The bytes with every bit of the middle one flipped. The empty sequence stays empty.
fn garbled(alloc: Global, bytes: &Packet) -> Result<Packet, NoMemory>
    ensures { IfOk result (λ garbled. garbled ≡ flipped bytes.now) }
{
    let mut bytes = bytes.as_slice().to_vec(alloc)?;
    let at = bytes.len() / 2;
    if at < bytes.len() {
        bytes[at] ^= 0xff;
    }
    Packet::of(Bytes::of(bytes))
}
