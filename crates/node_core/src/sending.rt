//! What a node seals and sends. If the sealer is spent, the send is left out, and its statement is not listed. Only
//! deeds of a faulty replica spend a sealer.
ghost use Rattle.std.specs.Prelude.{◌≡◌, ◌≤◌, ◌∷◌, ◌++◌, [], Some, IfOk};
ghost use Rattle.std.specs.List.{range_with_len};
ghost use Rattle.seq_base.specs.Spelling.{order_spelling, seal_spelling};
ghost use Rattle.node_core.specs.State.{KeepsSeat};
ghost use Rattle.node_core.specs.Reported.{reported, to_each, everyone, sealed_to, sealed_bytes, fetched_from, replicas_of, IsSealed};
ghost use Rattle.node_core.specs.Turn.{calls};
ghost use Rattle.node_core.specs.NewView.{asks};
ghost use Rattle.node_core.specs.Order.{proposes};
ghost use Rattle.node_core.specs.Propose.{lone_vote, vote_for, vote_with, to_next};
ghost use Rattle.node_core.specs.Give.{fetch_of};

use crate::node::Node;
use crate::statements::propose_statement;
use crate::{Reason, Statements, Turned};
use seal_kit::{SealFault, Sealer};
use seq_base::{Block, Bytes, Digest, LocalOrder, NoMemory, Outgoing, Outgoings, Packet, Seal};
use std::alloc::Global;
use wire_write::{
    ask_statement, fetch_message, give_message, lone_vote_message, new_view_statement, order_bytes,
    sealed_message, vote_bytes, vote_message,
};

/// The receivers of a message: one replica, or each below this number.
#[derive(Clone, Copy)]
enum Receivers {
    One(u32),
    Each(u32),
}

impl<S: Sealer> Node<S> {
    /// A turn that seals and sends nothing.
    pub(crate) fn quiet(&self, reason: Reason) -> Turned
        ensures { result ≡ reported self.now.state reason [] [] }
    {
        self.reported(reason, Vec::new(self.alloc), Vec::new(self.alloc))
    }

    fn reported(&self, reason: Reason, sealed: Vec<Bytes>, sends: Vec<Outgoing>) -> Turned
        ensures { result ≡ reported self.now.state reason sealed.items sends.items }
    {
        Turned {
            reason,
            kept: self.state.kept(),
            sealed: Statements::of(sealed),
            sends: Outgoings::of(sends),
        }
    }

    /// The seal of a statement, unless the sealer is spent.
    fn seal(&mut self, statement: &[u8]) -> Result<Option<Seal>, NoMemory>
        ensures answer { IfOk result (λ seal.
            IsSealed (S.gives self.old.sealer) self.old.state statement.now seal self.new.state) }
        ensures seat { KeepsSeat S.Sealer self.old self.new }
    {
        match self.sealer.seal(statement) {
            Ok(seal) => Ok(Some(seal)),
            Err(SealFault::Spent) => Ok(None),
            Err(SealFault::NoMemory) => Err(NoMemory),
        }
    }

    /// Seals a statement, and sends it.
    fn send_sealed(&mut self, statement: Bytes, receivers: Receivers) -> Result<Turned, NoMemory>
        ensures ok { IfOk result (λ t.
            sealed_to (S.gives self.old.sealer) self.old.state statement (replicas_of receivers) ≡ record { reported = t; state = self.new.state }) }
        ensures seat { KeepsSeat S.Sealer self.old self.new }
    {
        match self.seal(statement.as_slice())? {
            Some(seal) => self.report_sealed(statement, &seal, receivers),
            None => Ok(self.quiet(Reason::Done)),
        }
    }

    /// Sends a statement with its seal.
    fn report_sealed(
        &self,
        statement: Bytes,
        seal: &Seal,
        receivers: Receivers,
    ) -> Result<Turned, NoMemory>
        ensures { IfOk result
            (λ t. t ≡ reported self.now.state Reason.Done (statement ∷ []) (to_each (replicas_of receivers) (sealed_bytes statement seal.now))) }
    {
        let message = sealed_message(self.alloc, statement.as_slice(), seal)?;
        let sealed = listed(self.alloc, statement)?;
        self.report(Reason::Done, sealed, message, receivers)
    }

    /// Sends a message, and lists the statements that were sealed for it.
    fn report(
        &self,
        reason: Reason,
        sealed: Vec<Bytes>,
        message: Bytes,
        receivers: Receivers,
    ) -> Result<Turned, NoMemory>
        ensures { IfOk result (λ t. t ≡ reported self.now.state reason sealed.items (to_each (replicas_of receivers) message)) }
    {
        let sends = sends_of(self.alloc, message, receivers)?;
        Ok(self.reported(reason, sealed, sends))
    }

    fn send_to_all(&mut self, statement: Bytes) -> Result<Turned, NoMemory>
        ensures ok { IfOk result (λ t.
            sealed_to (S.gives self.old.sealer) self.old.state statement (everyone self.old.state.known) ≡ record { reported = t; state = self.new.state }) }
        ensures seat { KeepsSeat S.Sealer self.old self.new }
    {
        let count = self.state.n();
        self.send_sealed(statement, Receivers::Each(count))
    }

    /// Sends the highest certificate to the leader of the view.
    pub(crate) fn send_new_view(&mut self) -> Result<Turned, NoMemory>
        ensures ok { IfOk result (λ t.
            calls (S.gives self.old.sealer) self.old.state ≡ record { reported = t; state = self.new.state }) }
        ensures seat { KeepsSeat S.Sealer self.old self.new }
    {
        let view = self.state.view();
        let statement = new_view_statement(self.alloc, self.state.me(), view, self.state.high())?;
        let leader = self.state.leader(view);
        self.send_sealed(statement, Receivers::One(leader))
    }

    /// Asks each replica for a local order for the asked view.
    pub(crate) fn send_ask(&mut self) -> Result<Turned, NoMemory>
        ensures ok { IfOk result (λ t.
            asks (S.gives self.old.sealer) self.old.state ≡ record { reported = t; state = self.new.state }) }
        ensures seat { KeepsSeat S.Sealer self.old self.new }
    {
        let view = self.state.asked();
        let statement = ask_statement(self.alloc, self.state.me(), view, self.state.high())?;
        self.send_to_all(statement)
    }

    /// Sends a local order to the leader that asked for it.
    pub(crate) fn send_order(&mut self, to: u32, order: &LocalOrder) -> Result<Turned, NoMemory>
        ensures ok { IfOk result (λ t.
            sealed_to (S.gives self.old.sealer) self.old.state (order_spelling order.now) (to ∷ []) ≡ record { reported = t; state = self.new.state }) }
        ensures seat { KeepsSeat S.Sealer self.old self.new }
    {
        let statement = order_bytes(self.alloc, order)?;
        self.send_sealed(statement, Receivers::One(to))
    }

    /// Sends a block to each replica.
    pub(crate) fn send_propose(&mut self, block: &Block) -> Result<Turned, NoMemory>
        ensures ok { IfOk result (λ t.
            proposes (S.gives self.old.sealer) self.old.state block.now ≡ record { reported = t; state = self.new.state }) }
        ensures seat { KeepsSeat S.Sealer self.old self.new }
    {
        let statement = propose_statement(self.alloc, self.state.me(), block)?;
        self.send_to_all(statement)
    }

    /// Sends a vote without an order to the leader of the view after the last.
    pub(crate) fn send_lone_vote(&mut self, view: u32, block: &Digest) -> Result<Turned, NoMemory>
        requires { view ≤ self.old.state.known.views }
        ensures ok { IfOk result (λ t.
            lone_vote (S.gives self.old.sealer) self.old.state view block.now ≡ record { reported = t; state = self.new.state }) }
        ensures seat { KeepsSeat S.Sealer self.old self.new }
    {
        let statement = vote_bytes(self.state.me(), view, block);
        match self.seal(&statement)? {
            Some(seal) => self.report_lone_vote(view, &statement, &seal),
            None => Ok(self.quiet(Reason::Done)),
        }
    }

    /// Sends a vote without an order, with its seal.
    fn report_lone_vote(&self, view: u32, statement: &[u8], seal: &Seal) -> Result<Turned, NoMemory>
        requires { view ≤ self.now.state.known.views }
        ensures { IfOk result (λ t. t ≡ reported self.now.state Reason.Done (statement.now ∷ [])
            (to_each (to_next self.now.state.known view) (sealed_bytes statement.now seal.now ++ 0 ∷ []))) }
    {
        let message = lone_vote_message(self.alloc, statement, seal)?;
        self.report_vote(view, vote_listed(self.alloc, statement)?, message)
    }

    /// Sends a vote to the next leader, with the node's own order for the next view.
    pub(crate) fn send_vote(
        &mut self,
        view: u32,
        block: &Digest,
        order: &LocalOrder,
    ) -> Result<Turned, NoMemory>
        requires { view ≤ self.old.state.known.views }
        ensures ok { IfOk result (λ t.
            vote_for (S.gives self.old.sealer) self.old.state view block.now order.now ≡ record { reported = t; state = self.new.state }) }
        ensures seat { KeepsSeat S.Sealer self.old self.new }
    {
        let statement = vote_bytes(self.state.me(), view, block);
        match self.seal(&statement)? {
            Some(seal) => self.send_vote_with(view, block, &seal, order),
            None => Ok(self.quiet(Reason::Done)),
        }
    }

    /// Seals the order of a vote that has its seal, and sends both.
    fn send_vote_with(
        &mut self,
        view: u32,
        block: &Digest,
        seal: &Seal,
        order: &LocalOrder,
    ) -> Result<Turned, NoMemory>
        requires { view ≤ self.old.state.known.views }
        ensures ok { IfOk result (λ t.
            vote_with (S.gives self.old.sealer) self.old.state view block.now seal.now order.now ≡ record { reported = t; state = self.new.state }) }
        ensures seat { KeepsSeat S.Sealer self.old self.new }
    {
        let statement = vote_bytes(self.state.me(), view, block);
        let order = order_bytes(self.alloc, order)?;
        match self.seal(order.as_slice())? {
            Some(order_seal) => self.report_order(view, &statement, seal, order, &order_seal),
            None => Ok(self.quiet(Reason::Done)),
        }
    }

    /// Sends a vote and its order, with their seals.
    fn report_order(
        &self,
        view: u32,
        statement: &[u8],
        seal: &Seal,
        order: Bytes,
        order_seal: &Seal,
    ) -> Result<Turned, NoMemory>
        requires { view ≤ self.now.state.known.views }
        ensures { IfOk result (λ t. t ≡ reported self.now.state Reason.Done (statement.now ∷ order ∷ [])
            (to_each (to_next self.now.state.known view) (sealed_bytes statement.now seal.now ++ 1 ∷ (order ++ seal_spelling order_seal.now)))) }
    {
        let message = vote_message(self.alloc, statement, seal, order.as_slice(), order_seal)?;
        let sealed = both_listed(self.alloc, statement, order)?;
        self.report_vote(view, sealed, message)
    }

    fn report_vote(&self, view: u32, sealed: Vec<Bytes>, message: Bytes) -> Result<Turned, NoMemory>
        requires { view ≤ self.now.state.known.views }
        ensures { IfOk result (λ t. t ≡ reported self.now.state Reason.Done sealed.items (to_each (to_next self.now.state.known view) message)) }
    {
        let next = self.state.next_leader(view);
        self.report(Reason::Done, sealed, message, Receivers::One(next))
    }

    /// Asks a replica for a block that it named and that is not stored.
    pub(crate) fn send_fetch(&self, to: u32, block: &Digest) -> Result<Turned, NoMemory>
        ensures ok { IfOk result (λ t. fetched_from to block.now self.now.state ≡ record { reported = t; state = self.now.state }) }
        ensures unsealed { IfOk result (λ t. t.sealed ≡ []) }
    {
        let message = fetch_message(self.alloc, block)?;
        self.send_plain(Reason::Orphan, to, message)
    }

    /// Sends a stored block to the replica that asked for it.
    pub(crate) fn send_give(&self, to: u32, block: &Block) -> Result<Turned, NoMemory>
        ensures ok { IfOk result (λ t. fetch_of self.now.state to (Some block.now) ≡ record { reported = t; state = self.now.state }) }
        ensures unsealed { IfOk result (λ t. t.sealed ≡ []) }
    {
        let message = give_message(self.alloc, block)?;
        self.send_plain(Reason::Done, to, message)
    }

    /// Sends a message without a seal to a replica.
    fn send_plain(&self, reason: Reason, to: u32, message: Bytes) -> Result<Turned, NoMemory>
        ensures { IfOk result (λ t. t ≡ reported self.now.state reason [] (to_each (to ∷ []) message)) }
    {
        self.report(reason, Vec::new(self.alloc), message, Receivers::One(to))
    }
}

/// A list of one statement.
fn listed(alloc: Global, statement: Bytes) -> Result<Vec<Bytes>, NoMemory>
    ensures { IfOk result (λ sealed. sealed.items ≡ statement ∷ []) }
{
    let mut sealed = Vec::new(alloc);
    sealed.push(statement)?;
    Ok(sealed)
}

/// A list of the statement of a vote.
fn vote_listed(alloc: Global, statement: &[u8]) -> Result<Vec<Bytes>, NoMemory>
    ensures { IfOk result (λ sealed. sealed.items ≡ statement.now ∷ []) }
{
    listed(alloc, Bytes::of(Vec::from_slice(alloc, statement)?))
}

/// A list of the statements of a vote and of the order that it carries.
fn both_listed(alloc: Global, statement: &[u8], order: Bytes) -> Result<Vec<Bytes>, NoMemory>
    ensures { IfOk result (λ sealed. sealed.items ≡ statement.now ∷ order ∷ []) }
{
    let mut sealed = vote_listed(alloc, statement)?;
    sealed.push(order)?;
    Ok(sealed)
}

fn sends_of(alloc: Global, message: Bytes, receivers: Receivers) -> Result<Vec<Outgoing>, NoMemory>
    ensures { IfOk result (λ sends. sends.items ≡ to_each (replicas_of receivers) message) }
{
    let packet = Packet::of(message)?;
    match receivers {
        Receivers::One(to) => to_one(alloc, packet, to),
        Receivers::Each(count) => to_each(alloc, &packet, count),
    }
}

fn to_one(alloc: Global, bytes: Packet, to: u32) -> Result<Vec<Outgoing>, NoMemory>
    ensures { IfOk result (λ sends. sends.items ≡ to_each (to ∷ []) bytes) }
{
    let mut sends = Vec::new(alloc);
    sends.push(Outgoing { to, bytes })?;
    Ok(sends)
}

/// The same bytes to each replica below this number.
fn to_each(alloc: Global, packet: &Packet, count: u32) -> Result<Vec<Outgoing>, NoMemory>
    ensures { IfOk result (λ sends. sends.items ≡ to_each (range_with_len 0 count) packet.now) }
{
    let mut sends = Vec::new(alloc);
    for to in 0..count {
        sends.push(outgoing(packet, to)?)?;
    }
    Ok(sends)
}

fn outgoing(packet: &Packet, to: u32) -> Result<Outgoing, NoMemory>
    ensures { IfOk result (λ outgoing. outgoing ≡ record { to = to; bytes = packet.now }) }
{
    Ok(Outgoing {
        to,
        bytes: packet.share()?,
    })
}
