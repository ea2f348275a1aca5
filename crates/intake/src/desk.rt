use crate::keys;
use crate::slot::{Slot, Standing};
use indexmap::{IndexMap, IndexSet};
use seq_base::{NoMemory, Setting, Tx};
use std::alloc::Global;
use std::marker::Model;

/// What a replica received and heard: which transactions, in which order, with which stamps, and which of them arrived.
pub struct Desk {
    pub(crate) alloc: Global,
    pub(crate) n: u32,
    pub(crate) f: u32,
    pub(crate) me: u32,
    pub(crate) clock: u64,
    pub(crate) clocks: Vec<u64>,
    pub(crate) held: IndexMap<Tx, Slot>,
    pub(crate) finals: IndexSet<Tx>,
    // How many held ones each source has: the replicas in their order, then the blocks, then the log.
    pub(crate) charges: [u64; 18],
}

impl Drop for Desk {
    fn drop(self) {
        let Desk {
            alloc: _,
            n: _,
            f: _,
            me: _,
            clock: _,
            clocks: _,
            held: _,
            finals: _,
            charges: _,
        } = self;
    }
}

impl Model for Desk {
    ghost use Rattle.intake.specs.Desk.{Desk, IsDesk, AreCharges};

    ghost Value = { Desk };

    ghost view = { λ d. record { n = d.n; f = d.f; me = d.me; clock = d.clock; clocks = d.clocks.items; held = d.held.entries; finals = d.finals.keys } };

    ghost invariant = { λ d. AreCharges d.charges d.held.entries
        × IsDesk (record { n = d.n; f = d.f; me = d.me; clock = d.clock; clocks = d.clocks.items; held = d.held.entries; finals = d.finals.keys }) };
}

impl Desk {
    ghost use Rattle.std.specs.Prelude.{◌≡◌, ◌<◌, ◌≤◌, IfOk, length};
    ghost use Rattle.intake.specs.Desk.{IsDesk, opening, charged, next_stamp, is_final, is_held, standing_of, waiting};

    /// Nothing received yet. `me` is the own number.
    pub fn new(alloc: Global, setting: Setting, me: u32) -> Result<Desk, NoMemory>
        requires { me < setting.n }
        ensures { IfOk result (λ d. d ≡ opening setting.n setting.f me) }
    {
        let n = setting.n();
        let mut clocks = Vec::new(alloc);
        for _ in 0..n {
            clocks.push(0)?;
        }
        Ok(Desk {
            alloc,
            n,
            f: setting.f(),
            me,
            clock: 0,
            clocks,
            held: IndexMap::new(alloc),
            finals: IndexSet::new(alloc),
            charges: [0; 18],
        })
    }

    /// States that this desk meets its invariant. The call has no effect.
    pub fn keeps_its_rules(&self)
        ensures { IsDesk self.now }
    {
        let _clock = self.clock;
    }

    /// The own clock: the stamp of the last receipt.
    pub fn clock(&self) -> u64
        ensures { result ≡ self.now.clock }
    {
        self.clock
    }

    /// The number of replicas.
    pub fn n(&self) -> u32
        ensures value { result ≡ self.now.n }
        ensures some { 0 < result }
        ensures few { result ≤ 16 }
    {
        self.n
    }

    /// The own number.
    pub fn me(&self) -> u32
        ensures value { result ≡ self.now.me }
        ensures replica { result < self.now.n }
    {
        self.me
    }

    /// The maximum number of faulty replicas.
    pub fn f(&self) -> u32
        ensures { result ≡ self.now.f }
    {
        self.f
    }

    /// How many transactions are held: those that wait, and those that arrived and are not final.
    pub fn held_count(&self) -> usize
        ensures { result ≡ length self.now.held }
    {
        self.held.len()
    }

    pub(crate) fn is_final(&self, tx: &Tx) -> bool
        ensures { result ≡ is_final tx.now self.now }
    {
        self.finals.contains(tx)
    }

    pub(crate) fn is_held(&self, tx: &Tx) -> bool
        ensures { result ≡ is_held tx.now self.now }
    {
        self.held.contains_key(tx)
    }

    /// Where a transaction stands.
    pub fn standing(&self, tx: &Tx) -> Standing
        ensures { result ≡ standing_of tx.now self.now }
    {
        if self.is_final(tx) {
            return Standing::Final;
        }
        match self.held.get(tx) {
            None => Standing::Unknown,
            Some(slot) if slot.arrived => Standing::Arrived,
            Some(_) => Standing::Waiting,
        }
    }

    /// The stamp of the next receipt.
    #[tactic(auto, using(crate::proofs::Desks::adopted_below), unfolding(crate::specs::Desk::next_stamp))]
    pub(crate) fn next_stamp(&self) -> u64
        ensures { result ≡ next_stamp self.now }
    {
        1 + self
            .clock
            .max(keys::adopted_of(self.f as usize, self.clocks.as_slice()))
    }
}
