//! What a replica receives, and what of it arrives when. None of these calls touches the node: a host lets what arrives
//! happen as an event ([`Replica::prepare`]).
ghost use Rattle.std.specs.Prelude.{◌≡◌, ◌<◌, ◌≤◌, ◌+◌, [], false, Ok, IfOk, OnOk, OnErr, length, max};
ghost use Rattle.std.specs.Map.{keys_of};
ghost use Rattle.intake.specs.Desk.{waiting, standing_of};
ghost use Rattle.intake.specs.Naming.{HasNamedAll, HasNamedOf};
ghost use Rattle.intake.specs.Offered.{HasArrived, HasNamed, unproposed};
ghost use Rattle.intake.specs.Receiving.{answer_of, clock_heard, hear_answer, heard, received, receipts_after, restore_answer, restored, settled};
ghost use Rattle.replica_box.specs.Seats.{proposes};
ghost use Rattle.replica_box.specs.Shown.{shown_lists, shows_block};

use crate::Replica;
use crate::certified::Certified;
use crate::shown::{Shown, shown_by};
use intake::{Arrivals, Desk, Receipt, Taken};
use seq_base::{NoMemory, Tx};

impl Replica {
    /// What the replica received and heard.
    pub fn desk(&self) -> &Desk
        ensures { result.now ≡ self.now.desk }
    {
        self.intake.desk()
    }

    /// A transaction of an own client.
    pub fn submit(&mut self, tx: Tx) -> Result<Taken, NoMemory>
        ensures answer { IfOk result (λ taken. taken ≡ answer_of self.old.desk.me tx self.old.desk) }
        ensures ok { OnOk result (self.new ≡ record self.old { desk = received self.old.desk.me tx self.old.desk }) }
        ensures err { OnErr result (self.new ≡ self.old) }
    {
        self.intake.submit(tx)
    }

    /// A receipt that a peer reports.
    pub fn hear(&mut self, peer: u32, receipt: Receipt) -> Result<Taken, NoMemory>
        requires { peer < self.old.desk.n }
        ensures answer { IfOk result (λ taken. taken ≡ hear_answer peer receipt self.old.desk) }
        ensures ok { OnOk result (self.new ≡ record self.old { desk = heard peer receipt self.old.desk }) }
        ensures err { OnErr result (self.new ≡ self.old) }
    {
        self.intake.hear(peer, receipt)
    }

    /// The clock that a peer reports.
    pub fn hear_clock(&mut self, peer: u32, clock: u64)
        requires { peer < self.old.desk.n }
        ensures { self.new ≡ record self.old { desk = clock_heard peer clock self.old.desk } }
    {
        self.intake.hear_clock(peer, clock);
    }

    /// A transaction that arrived before the replica was opened. It does not arrive again.
    pub fn restore(&mut self, tx: Tx) -> Result<Taken, NoMemory>
        ensures answer { IfOk result (λ taken. taken ≡ restore_answer tx self.old.desk) }
        ensures ok { OnOk result (self.new ≡ record self.old { desk = restored tx self.old.desk }) }
        ensures err { OnErr result (self.new ≡ self.old) }
    {
        self.intake.restore(tx)
    }

    /// Transactions that are final. They are not received again.
    pub fn settle(&mut self, txs: &[Tx]) -> Result<(), NoMemory>
        ensures ok { OnOk result (self.new ≡ record self.old { desk = settled txs.now self.old.desk }) }
        ensures err { OnErr result (self.new ≡ self.old) }
    {
        self.intake.settle(txs)
    }

    /// The message of a block that a turn stored. What more than f of its lists hold is received, if it was not before, and
    /// arrives once the chain proposes it. Returns whether the message has a block. After running out of memory some of
    /// them may not be received.
    pub fn accepted(&mut self, bytes: &[u8]) -> Result<bool, NoMemory>
        ensures found { IfOk result (λ found. found ≡ shows_block bytes.now) }
        ensures none { shows_block bytes.now ≡ false → (result ≡ Ok false) × (self.new ≡ self.old) }
        ensures named { HasNamed self.old.desk self.new.desk }
        ensures only { HasNamedOf self.old.desk.f (shown_lists bytes.now) self.old.desk self.new.desk }
        ensures all { OnOk result (HasNamedAll self.old.desk.f (shown_lists bytes.now) self.old.desk self.new.desk) }
        ensures same { self.new ≡ record self.old { desk = self.new.desk } }
    {
        match shown_by(self.alloc, bytes)? {
            None => Ok(false),
            Some(shown) => {
                let Shown {
                    view,
                    parent,
                    lists,
                } = shown;
                self.intake.accepted(view, parent, lists)?;
                Ok(true)
            }
        }
    }

    /// What arrives now, at most 480. After running out of memory nothing has arrived.
    pub fn arrive(&mut self) -> Result<Arrivals, NoMemory>
        ensures ok { IfOk result (λ arrivals. HasArrived self.old.desk arrivals.txs.items arrivals.given.items self.new.desk) }
        ensures err { OnErr result (HasNamed self.old.desk self.new.desk) }
        ensures cap { IfOk result (λ arrivals.
            unproposed (proposes self.old.node.state.known) self.old.desk + length arrivals.txs.items + length arrivals.given.items
            ≤ max 480 (unproposed (proposes self.old.node.state.known) self.old.desk)) }
        ensures most { IfOk result (λ arrivals. length arrivals.txs.items + length arrivals.given.items ≤ 480) }
        ensures few { length (waiting self.old.desk) + unproposed (proposes self.old.node.state.known) self.old.desk ≤ 64
            → IfOk result (λ arrivals. (arrivals.txs.items ≡ keys_of (waiting self.old.desk)) × (arrivals.given.items ≡ [])) }
        ensures same { self.new ≡ record self.old { desk = self.new.desk } }
    {
        let chain = Certified { node: &self.node };
        self.intake.arrive(&chain)
    }

    /// What arrives while the session is closing: what is named and the certified chain proposes, with all that wait and have
    /// smaller keys, at most 480. There are no exceptions. After running out of memory nothing has arrived.
    pub fn arrive_proposed(&mut self) -> Result<Arrivals, NoMemory>
        ensures ok { IfOk result (λ arrivals. HasArrived self.old.desk arrivals.txs.items arrivals.given.items self.new.desk) }
        ensures none_given { IfOk result (λ arrivals. arrivals.given.items ≡ []) }
        ensures cap { IfOk result (λ arrivals.
            unproposed (proposes self.old.node.state.known) self.old.desk + length arrivals.txs.items + length arrivals.given.items
            ≤ max 480 (unproposed (proposes self.old.node.state.known) self.old.desk)) }
        ensures most { IfOk result (λ arrivals. length arrivals.txs.items + length arrivals.given.items ≤ 480) }
        ensures err { OnErr result (self.new ≡ self.old) }
        ensures same { self.new ≡ record self.old { desk = self.new.desk } }
    {
        let chain = Certified { node: &self.node };
        self.intake.arrive_proposed(&chain)
    }
}
