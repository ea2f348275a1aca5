//! Which of the waiting transactions arrive now.
ghost use Rattle.std.specs.Prelude.{◌≡◌, ◌≤◌, ◌+◌, length, max, [], IfOk, OnOk, OnErr};
ghost use Rattle.std.specs.Map.{keys_of};
ghost use Rattle.intake.specs.declared.slot.Bound.{Bound};
ghost use Rattle.intake.specs.Desk.{waiting};
ghost use Rattle.intake.specs.Arriving.{arriving, arrived};
ghost use Rattle.intake.specs.Offered.{HasArrived, HasNamed, HasOffered, unproposed};

use crate::chain::{Chain, keep_unproposed};
use crate::choice::Choice;
use crate::{Bound, Intake};
use seq_base::{NoMemory, Tx};

/// Where so few wait or are not proposed yet, everything arrives, in the order of receipt.
const FEW: usize = 64;

/// How many that no block proposes or is expected to propose arrive in a burst. A local order has room for 128: the rest of it
/// is for what other replicas list.
const WINDOW: usize = 96;

/// The same after a block that proposes this many: replicas list the same then.
const WIDE_WINDOW: usize = 128;

const AGREED: usize = 90;

/// How many that no block proposes may have arrived.
const MAX_UNPROPOSED: usize = 480;

/// Lists lend where a block proposes fewer than these.
const FULL_BLOCK: usize = 48;

/// How many the lists of all replicas may let in that no block proposes yet: half of what a local order has room for.
const LENT: usize = 64;

/// What arrives.
#[derive(Drop)]
pub struct Arrivals {
    /// In the order of receipt.
    pub txs: Vec<Tx>,
    /// Exceptions, whatever their keys. They arrive after the others.
    pub given: Vec<Tx>,
}

/// How many have arrived that no block proposes, and how many of these no block is expected to propose.
#[derive(Drop)]
struct Load {
    unproposed: usize,
    unexpected: usize,
}

impl Intake {
    /// What arrives now. After running out of memory nothing has arrived.
    pub fn arrive<C: Chain>(&mut self, chain: &C) -> Result<Arrivals, NoMemory>
        ensures ok { IfOk result (λ arrivals. HasArrived self.old arrivals.txs.items arrivals.given.items self.new) }
        ensures err { OnErr result (HasNamed self.old self.new) }
        // At most 480 that no block proposes have arrived, unless more had before.
        ensures cap { IfOk result (λ arrivals.
            unproposed (C.proposes chain.now) self.old + length arrivals.txs.items + length arrivals.given.items
            ≤ max 480 (unproposed (C.proposes chain.now) self.old)) }
        ensures most { IfOk result (λ arrivals. length arrivals.txs.items + length arrivals.given.items ≤ 480) }
        // Where few wait, all arrive.
        ensures few { length (waiting self.old) + unproposed (C.proposes chain.now) self.old ≤ 64
            → IfOk result (λ arrivals. (arrivals.txs.items ≡ keys_of (waiting self.old)) × (arrivals.given.items ≡ [])) }
    {
        let load = self.load(chain)?;
        let waiting = self.desk.waiting_count();
        let room = MAX_UNPROPOSED.saturating_sub(load.unproposed);
        if load.unexpected.saturating_add(waiting) <= FEW && waiting <= room {
            let txs = self.arrive_all()?;
            return Ok(Arrivals {
                txs,
                given: Vec::new(self.alloc),
            });
        }
        let first = self.window().saturating_sub(load.unexpected);
        self.arrive_some(chain, room, first)
    }

    /// What arrives while a session is closing: what is named and a block of the certified chain proposes, with all that
    /// wait and have smaller keys. Nothing is given. After running out of memory nothing has arrived.
    pub fn arrive_proposed<C: Chain>(&mut self, chain: &C) -> Result<Arrivals, NoMemory>
        ensures ok { IfOk result (λ arrivals. HasArrived self.old arrivals.txs.items arrivals.given.items self.new) }
        ensures err { OnErr result (self.new ≡ self.old) }
        ensures none_given { IfOk result (λ arrivals. arrivals.given.items ≡ []) }
        ensures cap { IfOk result (λ arrivals.
            unproposed (C.proposes chain.now) self.old + length arrivals.txs.items + length arrivals.given.items
            ≤ max 480 (unproposed (C.proposes chain.now) self.old)) }
        ensures most { IfOk result (λ arrivals. length arrivals.txs.items + length arrivals.given.items ≤ 480) }
    {
        let load = self.load(chain)?;
        let room = MAX_UNPROPOSED.saturating_sub(load.unproposed);
        let choice = self.choose_proposed(chain, room)?;
        let txs = self.admit(&choice, room)?;
        Ok(Arrivals {
            txs,
            given: Vec::new(self.alloc),
        })
    }

    fn arrive_all(&mut self) -> Result<Vec<Tx>, NoMemory>
        ensures txs { IfOk result (λ txs. txs.items ≡ arriving Bound.All [] self.old) }
        ensures ok { OnOk result (self.new ≡ arrived Bound.All [] self.old) }
        ensures err { OnErr result (self.new ≡ self.old) }
    {
        let txs = self.desk.arrive(Bound::All, &[])?;
        self.hints.arrived(txs.as_slice());
        Ok(txs)
    }

    // The first ones by key, what is named or lent, and exceptions.
    fn arrive_some<C: Chain>(
        &mut self,
        chain: &C,
        room: usize,
        first: usize,
    ) -> Result<Arrivals, NoMemory>
        ensures ok { IfOk result (λ arrivals. HasArrived self.old arrivals.txs.items arrivals.given.items self.new) }
        ensures err { OnErr result (HasNamed self.old self.new) }
        ensures room { IfOk result (λ arrivals. length arrivals.txs.items + length arrivals.given.items ≤ room) }
    {
        let choice = self.choose(chain, room, first)?;
        let mut given = self.exceptions(chain, &choice, room)?;
        let txs = self.admit(&choice, room - given.len())?;
        self.give_all(&mut given);
        Ok(Arrivals { txs, given })
    }

    fn load<C: Chain>(&self, chain: &C) -> Result<Load, NoMemory>
        ensures count { IfOk result (λ load. load.unproposed ≡ unproposed (C.proposes chain.now) self.now) }
        ensures fewer { IfOk result (λ load. load.unexpected ≤ load.unproposed) }
    {
        let arrived = self.desk.arrived_list()?;
        let mut unproposed = 0usize;
        let mut unexpected = 0usize;
        for tx in arrived.as_slice() {
            if !chain.is_proposed(tx)? {
                unproposed += 1;
                if !self.hints.expects(tx) {
                    unexpected += 1;
                }
            }
        }
        Ok(Load {
            unproposed,
            unexpected,
        })
    }

    fn window(&self) -> usize {
        if self.hints.last.solid.len() < AGREED {
            WINDOW
        } else {
            WIDE_WINDOW
        }
    }

    // The first ones by key, what is named, and what is lent. Nothing that is named or lent brings others with it: at
    // another replica these may be few, and here so many that there is no room for what all have.
    fn choose<C: Chain>(&mut self, chain: &C, room: usize, first: usize) -> Result<Choice, NoMemory>
        ensures { self.new ≡ self.old }
    {
        let order = self.desk.ordered()?;
        let mut choice = Choice::new(self.alloc, order, room, first);
        self.let_named_in(&mut choice)?;
        if self.hints.last.solid.len() < FULL_BLOCK {
            self.lend_all(chain, &mut choice)?;
        }
        Ok(choice)
    }

    fn let_named_in(&self, choice: &mut Choice) -> Result<(), NoMemory> {
        for at in 0..self.hints.named.len() {
            let Some(tx) = self.hints.named.get(at) else {
                return Ok(());
            };
            choice.let_in(&self.desk, &tx)?;
        }
        Ok(())
    }

    // What is named and proposed, with all that have a smaller key.
    fn choose_proposed<C: Chain>(&self, chain: &C, room: usize) -> Result<Choice, NoMemory> {
        let order = self.desk.ordered()?;
        let mut choice = Choice::new(self.alloc, order, room, 0);
        for at in 0..self.hints.named.len() {
            let Some(tx) = self.hints.named.get(at) else {
                return Ok(choice);
            };
            if chain.is_proposed(&tx)? {
                choice.let_in_with_smaller(&self.desk, &tx)?;
            }
        }
        Ok(choice)
    }

    fn lend_all<C: Chain>(&mut self, chain: &C, choice: &mut Choice) -> Result<(), NoMemory>
        ensures { self.new ≡ self.old }
    {
        for at in 0..self.hints.lists.len() {
            self.lend(chain, choice, at)?;
        }
        Ok(())
    }

    // What the list of a replica lets in.
    fn lend<C: Chain>(&mut self, chain: &C, choice: &mut Choice, at: usize) -> Result<(), NoMemory>
        ensures { self.new ≡ self.old }
    {
        let share = self.share(LENT);
        let Some(list) = self.hints.lists.get(at) else {
            return Ok(());
        };
        let Some(lent) = self.hints.lent.get_mut(list.replica as usize) else {
            return Ok(());
        };
        keep_unproposed(chain, lent)?;
        for tx in list.txs.as_slice() {
            if lent.len() >= share {
                return Ok(());
            }
            if !chain.is_proposed(tx)? && choice.let_in(&self.desk, tx)? {
                lent.push(*tx)?;
            }
        }
        Ok(())
    }

    // The part of one replica's lists.
    pub(crate) fn share(&self, all: usize) -> usize {
        (all / self.desk.n() as usize).max(1)
    }

    // What the choice lets arrive, where there is room.
    fn admit(&mut self, choice: &Choice, room: usize) -> Result<Vec<Tx>, NoMemory>
        ensures ok { IfOk result (λ txs. HasOffered self.old txs.items self.new) }
        ensures room { IfOk result (λ txs. length txs.items ≤ room) }
        ensures err { OnErr result (self.new ≡ self.old) }
    {
        let Some(bound) = choice.bound() else {
            return Ok(Vec::new(self.alloc));
        };
        let extra = choice.extra(self.alloc)?;
        let txs = self.desk.arriving(bound, extra.as_slice())?;
        if txs.len() > room {
            return Ok(Vec::new(self.alloc));
        }
        self.desk.mark(bound, extra.as_slice());
        self.hints.arrived(txs.as_slice());
        Ok(txs)
    }
}
