//! Receipts of one's own.
ghost use Rattle.std.specs.Prelude.{◌≡◌, ◌≢◌, ◌<◌, ◌≤◌, ◌+◌, ◌^◌, IfOk, OnOk, OnErr, true};
ghost use Rattle.intake.specs.Desk.{charged, quota, next_stamp};
ghost use Rattle.intake.specs.Receiving.{answer_of, restore_answer, received, restored, stamped, own_slot, is_new, is_full, is_late};

use crate::slot::{LIMIT, Slot, UNKNOWN};
use crate::{Desk, Taken};
use seq_base::{NoMemory, Tx};

/// How many own clients may have held.
const OWN_QUOTA: u64 = 16_384;

/// How many a peer may have held, and the blocks.
const PEER_QUOTA: u64 = 4_096;

impl Desk {
    /// A transaction of a source: of the own clients (the own number), of a peer (its number), or of a block (n).
    pub fn receive(&mut self, tx: Tx, source: u32) -> Result<Taken, NoMemory>
        requires { source ≤ self.old.n }
        ensures answer { IfOk result (λ taken. taken ≡ answer_of source tx self.old) }
        ensures ok { OnOk result (self.new ≡ received source tx self.old) }
        ensures err { OnErr result (self.new ≡ self.old) }
    {
        let taken = self.answer_of(source, &tx);
        if is_new(taken) {
            self.stamp(tx, source, false)?;
        }
        Ok(taken)
    }

    /// A transaction that arrived before a restart, as the log says. It has no quota, and does not arrive again.
    pub fn restore(&mut self, tx: Tx) -> Result<Taken, NoMemory>
        ensures answer { IfOk result (λ taken. taken ≡ restore_answer tx self.old) }
        ensures ok { OnOk result (self.new ≡ restored tx self.old) }
        ensures err { OnErr result (self.new ≡ self.old) }
    {
        let taken = self.restore_answer(&tx);
        let log = self.n + 1;
        if is_new(taken) {
            self.stamp(tx, log, true)?;
        }
        Ok(taken)
    }

    fn answer_of(&self, source: u32, tx: &Tx) -> Taken
        requires { source ≤ self.now.n }
        ensures { result ≡ answer_of source tx.now self.now }
    {
        if self.is_final(tx) {
            return Taken::Final;
        }
        if self.is_held(tx) {
            return Taken::Held;
        }
        if self.is_full(source) {
            return Taken::Full;
        }
        Taken::New
    }

    fn restore_answer(&self, tx: &Tx) -> Taken
        ensures { result ≡ restore_answer tx.now self.now }
    {
        if self.is_final(tx) {
            return Taken::Final;
        }
        if self.is_held(tx) {
            return Taken::Held;
        }
        if self.is_late() {
            return Taken::Full;
        }
        Taken::New
    }

    fn is_late(&self) -> bool
        ensures { result ≡ is_late self.now }
    {
        LIMIT <= self.next_stamp()
    }

    fn is_full(&self, source: u32) -> bool
        requires { source ≤ self.now.n }
        ensures { result ≡ is_full source self.now }
    {
        self.quota(source) <= self.charged(source) || self.is_late()
    }

    fn quota(&self, source: u32) -> u64
        ensures { result ≡ quota source self.now }
    {
        if source == self.me {
            OWN_QUOTA
        } else {
            PEER_QUOTA
        }
    }

    /// How many held ones are charged to a source: the own clients, a peer, the blocks (n), or the log (n + 1).
    pub fn charged(&self, source: u32) -> u64
        requires { source ≤ self.now.n + 1 }
        ensures value { result ≡ charged source self.now }
        ensures own { source ≡ self.now.me → result ≤ 16384 }
        ensures few { source ≤ self.now.n → source ≢ self.now.me → result ≤ 4096 }
        ensures small { result < 2 ^ 63 }
    {
        // It is at most the number of held ones.
        let _held = self.held.len();
        self.charges[source as usize]
    }

    // Takes in a new transaction, with a stamp of the own clock.
    fn stamp(&mut self, tx: Tx, source: u32, arrived: bool) -> Result<(), NoMemory>
        requires known { source ≤ self.old.n + 1 }
        requires fresh { is_new (restore_answer tx self.old) ≡ true }
        requires room { source ≤ self.old.n → charged source self.old < quota source self.old }
        ensures ok { OnOk result (self.new ≡ stamped (next_stamp self.old) arrived source tx self.old) }
        ensures err { OnErr result (self.new ≡ self.old) }
    {
        let stamp = self.next_stamp();
        let charge = self.charged(source);
        let me = self.me as usize;
        self.held.insert(tx, own_slot(me, stamp, arrived, source))?;
        self.clock = stamp;
        self.clocks[me] = stamp;
        self.charges[source as usize] = charge + 1;
        Ok(())
    }
}

fn is_new(taken: Taken) -> bool
    ensures { result ≡ is_new taken }
{
    match taken {
        Taken::New => true,
        Taken::Final | Taken::Held | Taken::Full | Taken::Beyond => false,
    }
}

/// A slot with the own stamp alone.
fn own_slot(me: usize, stamp: u64, arrived: bool, source: u32) -> Slot
    requires { me < 16 }
    ensures { result ≡ own_slot me stamp arrived source }
{
    let mut stamps = [UNKNOWN; 16];
    stamps[me] = stamp;
    Slot {
        stamps,
        arrived,
        source,
    }
}
