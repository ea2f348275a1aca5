//! A desk, with what accepted blocks say of the transactions that wait.
use crate::hints::Hints;
use crate::{Desk, Receipt, Taken};
use seq_base::{NoMemory, Setting, Tx};
use std::alloc::Global;
use std::marker::Model;

/// What a replica received, and what blocks say of it. Contracts see the desk alone: the rest decides only how fast
/// transactions arrive.
pub struct Intake {
    pub(crate) alloc: Global,
    pub(crate) desk: Desk,
    pub(crate) hints: Hints,
    pub(crate) given_count: u64,
}

impl Drop for Intake {
    fn drop(self) {
        let Intake {
            alloc: _,
            desk: _,
            hints: _,
            given_count: _,
        } = self;
    }
}

impl Model for Intake {
    ghost use Rattle.intake.specs.Desk.{Desk};

    ghost Value = { Desk };

    ghost view = { λ i. i.desk };
}

impl Intake {
    ghost use Rattle.std.specs.Prelude.{◌≡◌, ◌≤◌, ◌<◌, IfOk, OnOk, OnErr};
    ghost use Rattle.intake.specs.Desk.{opening};
    ghost use Rattle.intake.specs.Receiving.{answer_of, received, restore_answer, restored, heard, hear_answer, clock_heard, settled};

    /// Nothing received yet. `me` is the own number.
    pub fn new(alloc: Global, setting: Setting, me: u32) -> Result<Intake, NoMemory>
        requires { me < setting.n }
        ensures { IfOk result (λ i. i ≡ opening setting.n setting.f me) }
    {
        Ok(Intake {
            alloc,
            desk: Desk::new(alloc, setting, me)?,
            hints: Hints::new(alloc, setting.n())?,
            given_count: 0,
        })
    }

    pub fn desk(&self) -> &Desk
        ensures { result.now ≡ self.now }
    {
        &self.desk
    }

    /// A transaction of an own client.
    pub fn submit(&mut self, tx: Tx) -> Result<Taken, NoMemory>
        ensures answer { IfOk result (λ taken. taken ≡ answer_of self.old.me tx self.old) }
        ensures ok { OnOk result (self.new ≡ received self.old.me tx self.old) }
        ensures err { OnErr result (self.new ≡ self.old) }
    {
        let me = self.desk.me();
        self.desk.receive(tx, me)
    }

    /// A receipt of a peer.
    pub fn hear(&mut self, peer: u32, receipt: Receipt) -> Result<Taken, NoMemory>
        requires { peer < self.old.n }
        ensures answer { IfOk result (λ taken. taken ≡ hear_answer peer receipt self.old) }
        ensures ok { OnOk result (self.new ≡ heard peer receipt self.old) }
        ensures err { OnErr result (self.new ≡ self.old) }
    {
        self.desk.hear(peer, receipt)
    }

    /// The clock of a peer.
    pub fn hear_clock(&mut self, peer: u32, clock: u64)
        requires { peer < self.old.n }
        ensures { self.new ≡ clock_heard peer clock self.old }
    {
        self.desk.hear_clock(peer, clock);
    }

    /// A transaction that arrived before a restart, as the log says.
    pub fn restore(&mut self, tx: Tx) -> Result<Taken, NoMemory>
        ensures answer { IfOk result (λ taken. taken ≡ restore_answer tx self.old) }
        ensures ok { OnOk result (self.new ≡ restored tx self.old) }
        ensures err { OnErr result (self.new ≡ self.old) }
    {
        self.desk.restore(tx)
    }

    /// Transactions that are final.
    pub fn settle(&mut self, txs: &[Tx]) -> Result<(), NoMemory>
        ensures ok { OnOk result (self.new ≡ settled txs.now self.old) }
        ensures err { OnErr result (self.new ≡ self.old) }
    {
        self.desk.settle(txs)?;
        self.hints.forget(txs);
        Ok(())
    }

    /// How many named transactions wait.
    pub fn named_count(&self) -> usize
        ensures { result ≤ 4096 }
    {
        self.hints.named.len()
    }

    /// How many exceptions were given, since this intake was made.
    pub fn given_count(&self) -> u64 {
        self.given_count
    }
}
