//! A node and its turns. A turn judges its event by the tests of the turn table, and then applies it if no test held.
//! Each kind of message has a file, with how it is judged and what it does.
ghost use Rattle.std.specs.Prelude.{◌≡◌, ◌≤◌, ◌<◌, ◌*◌, ◌↔◌, [], Err, false, IsTrue, IfOk, IfSome, IfNone, OnOk, OnErr};
ghost use Rattle.std.specs.Borrow.{Lends, sem};
ghost use Rattle.block_store.specs.Store.{block_digest};
ghost use Rattle.chain_state.specs.Standings.{finals};
ghost use Rattle.hotstuff_core.specs.Rules.{view_at};
ghost use Rattle.node_core.specs.contracts.node.Node.{the_row};
ghost use Rattle.node_core.specs.State.{fresh_seat, KeepsSeat, with_sealer};
ghost use Rattle.node_core.specs.Rows.{chain_at};
ghost use Rattle.node_core.specs.Idle.{Changes};
ghost use Rattle.node_core.specs.Memory.{judging_takes_memory, MayRunOut};
ghost use Rattle.node_core.specs.Turn.{turn_of};
ghost use Rattle.node_core.specs.Readable.{IsReadable};

mod apply;
mod ask;
mod catch_up;
mod give;
mod judge;
mod new_view;
mod order;
mod propose;
mod queries;
mod vote;

use crate::judged::Judged;
use crate::state::State;
use crate::{Event, NodeFault, Turned};
use seal_kit::{Checker, Sealer};
use seq_base::{BatchList, Digest, NoMemory, Setting};
use std::alloc::Global;
use std::marker::Model;
use wire_view::BlockView;
use wire_write::digest;

/// A replica of the sequencer.
pub struct Node<S: Sealer> {
    pub(crate) alloc: Global,
    pub(crate) state: State,
    pub(crate) sealer: S,
    halted: bool,
}

impl<S: Sealer> Drop for Node<S> {
    fn drop(self) {
        let Node {
            alloc: _,
            state: _,
            sealer: _,
            halted: _,
        } = self;
    }
}

impl<S: Sealer> Model for Node<S> {
    ghost use Rattle.node_core.specs.State.{NodeValue};

    ghost Value = { NodeValue S };

    ghost view = { λ a. record {
      state = record { known = a.state; made = S.made a.sealer; capacity = S.capacity a.sealer };
      halted = a.halted;
      sealer = a.sealer;
    } };
}

impl<S: Sealer> Node<S> {
    /// A node that knows only the first block. Its number is its sealer's, and `views` is the last view of the run.
    pub fn new(alloc: Global, setting: Setting, views: u32, sealer: S) -> Result<Node<S>, NoMemory>
        requires replica { S.replica sealer < setting.n }
        requires room { 5 * views ≤ S.capacity sealer }
        ensures { IfOk result (λ node. node ≡ fresh_seat S.made S.capacity S.replica setting views sealer) }
    {
        let capacity = sealer.capacity();
        prove!(5 * u64::from(views) <= u64::from(capacity));
        let state = State::new(alloc, setting, views, sealer.replica());
        Ok(Node {
            alloc,
            state,
            sealer,
            halted: false,
        })
    }

    /// The node's view.
    pub fn view(&self) -> u32
        ensures { result ≡ self.now.state.known.view }
    {
        self.state.view()
    }

    /// The view of the committed block.
    pub fn commit_view(&self) -> u32
        ensures { result ≡ view_at self.now.state.known.store self.now.state.known.safety.committed }
    {
        self.state.commit_view()
    }

    /// A copy of all final batches. [`Node::batch`] copies a single one.
    pub fn finals(&self) -> Result<BatchList, NoMemory>
        ensures { IfOk result (λ batches. batches ≡ finals (chain_at self.now.state.known self.now.state.known.safety.committed)) }
    {
        self.state.finals()
    }

    /// The sealer, for the simulator alone: there a faulty replica seals what no turn gives it. A host has no use for it.
    pub fn sealer_mut(&mut self) -> &mut S
        ensures* writes_back { sem 𝓛 (Lends (the_row S.row S.Sealer) S.row self.entry result (with_sealer S.made S.capacity self.old)) }
        ensures value { result.now ≡ self.old.sealer }
        ensures made { self.old.state.made ≡ S.made self.old.sealer }
        ensures capacity { self.old.state.capacity ≡ S.capacity self.old.sealer }
    {
        &mut self.sealer
    }

    /// The turn on an event, by the turn table. After a fault the node is halted, and each later turn returns `Halted`.
    /// `NoMemory` is returned only where the event changes the node or is judged with memory: not for bytes that are no
    /// message, for a message that is refused before a copy of it is made, or for a tick at the last view.
    pub fn turn<C: Checker>(&mut self, checker: &C, event: &Event) -> Result<Turned, NodeFault>
        ensures ok { IfOk result (λ t.
            turn_of (C.meaning checker.now) (S.gives self.old.sealer) self.old.state event.now ≡ record { reported = t; state = self.new.state }) }
        ensures readable { OnOk result (IsReadable event.now) }
        ensures gives { S.gives self.new.sealer ≡ S.gives self.old.sealer }
        ensures replica { S.replica self.new.sealer ≡ S.replica self.old.sealer }
        ensures halted { (result ≡ Err NodeFault.Halted) ↔ IsTrue self.old.halted }
        ensures stopped { OnErr result (IsTrue self.new.halted) }
        ensures running { OnOk result (self.new.halted ≡ false) }
        ensures memory { result ≡ Err NodeFault.NoMemory → MayRunOut (C.meaning checker.now) self.old.state event.now
            (turn_of (C.meaning checker.now) (S.gives self.old.sealer) self.old.state event.now) }
    {
        if self.halted {
            return Err(NodeFault::Halted);
        }
        match self.running_turn(checker, event) {
            Ok(turned) => Ok(turned),
            Err(_) => {
                self.halted = true;
                Err(NodeFault::NoMemory)
            }
        }
    }

    fn running_turn<C: Checker>(&mut self, checker: &C, event: &Event) -> Result<Turned, NoMemory>
        ensures ok { IfOk result (λ t.
            turn_of (C.meaning checker.now) (S.gives self.old.sealer) self.old.state event.now ≡ record { reported = t; state = self.new.state }) }
        ensures readable { OnOk result (IsReadable event.now) }
        ensures seat { KeepsSeat S.Sealer self.old self.new }
        ensures memory { OnErr result
            (MayRunOut (C.meaning checker.now) self.old.state event.now (turn_of (C.meaning checker.now) (S.gives self.old.sealer) self.old.state event.now)) }
    {
        match self.judge(checker, event)? {
            Judged::Idle(turned) => Ok(turned),
            Judged::Active(accepted) => self.apply(accepted),
        }
    }

    /// The turn on an event that changes nothing, so that a host need not log the event. It seals nothing, but it may
    /// send: a Fetch or the answer to one. `None` means that the event changes the node, so call [`Node::turn`]. A
    /// halted node returns `Halted`. Out of memory, the result is `NoMemory`, and the node is not halted. That can be only
    /// where the event is judged with memory.
    pub fn idle_turn<C: Checker>(
        &self,
        checker: &C,
        event: &Event,
    ) -> Result<Option<Turned>, NodeFault>
        ensures idle { IfOk result (λ t. IfSome t (λ reported.
            turn_of (C.meaning checker.now) (S.gives self.now.sealer) self.now.state event.now ≡ record { reported = reported; state = self.now.state })) }
        ensures changes { IfOk result (λ t. IfNone t
            (Changes self.now.state (turn_of (C.meaning checker.now) (S.gives self.now.sealer) self.now.state event.now))) }
        ensures unsealed { IfOk result (λ t. IfSome t (λ reported. reported.sealed ≡ [])) }
        ensures readable { OnOk result (IsReadable event.now) }
        ensures halted { (result ≡ Err NodeFault.Halted) ↔ IsTrue self.now.halted }
        ensures memory { result ≡ Err NodeFault.NoMemory → IsTrue (judging_takes_memory (C.meaning checker.now) self.now.state.known event.now) }
    {
        if self.halted {
            return Err(NodeFault::Halted);
        }
        match self.judge(checker, event) {
            Ok(Judged::Idle(turned)) => Ok(Some(turned)),
            Ok(Judged::Active(_)) => Ok(None),
            Err(_) => Err(NodeFault::NoMemory),
        }
    }
}

/// The digest of a block that is read in place.
#[tactic(auto, unfolding(block_store::specs::Store::block_digest))]
fn name_of(block: &BlockView<'_>) -> Digest
    ensures { result ≡ block_digest block.now }
{
    digest(block.bytes())
}
