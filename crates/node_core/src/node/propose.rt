//! Propose: the node stores the block, and votes for it.
ghost use Rattle.std.specs.Prelude.{◌≡◌, ◌≤◌, ◌<◌, ◌+◌, true, IfOk, OnErr, IsTrue};
ghost use Rattle.block_store.specs.Store.{is_stored};
ghost use Rattle.node_core.specs.State.{KeepsSeat};
ghost use Rattle.node_core.specs.Propose.{on_propose, propose_reason, proposed_reason, proposed_for, propose_done, voted};
ghost use Rattle.node_core.specs.Judged.{IsJudged, IsStorable};
ghost use Rattle.node_core.specs.Memory.{copies_or_fetches};

use super::{Node, name_of};
use crate::checks::{propose_reason, proposed_block_reason};
use crate::judged::{Accepted, Judged};
use crate::{Reason, Turned};
use seal_kit::{Checker, Sealer};
use seq_base::{Block, Digest, NoMemory};
use wire_view::{BlockView, ProposeView};

impl<S: Sealer> Node<S> {
    pub(crate) fn judge_propose<'a, C: Checker>(
        &self,
        checker: &C,
        from: u32,
        propose: &ProposeView<'a>,
    ) -> Result<Judged<'a>, NoMemory>
        ensures judged { IfOk result
            (IsJudged (S.gives self.now.sealer) self.now.state (on_propose (C.meaning checker.now) (S.gives self.now.sealer) self.now.state from propose.now)) }
        ensures memory { OnErr result (IsTrue (copies_or_fetches (propose_reason (C.meaning checker.now) self.now.state.known from propose.now))) }
    {
        let block = propose.block();
        match propose_reason(&self.state, checker, from, propose) {
            Reason::Done => self.judge_proposed_block(checker, &block),
            Reason::Orphan => Ok(Judged::Idle(self.send_fetch(from, &block.cert().block())?)),
            reason => Ok(Judged::Idle(self.quiet(reason))),
        }
    }

    fn judge_proposed_block<'a, C: Checker>(
        &self,
        checker: &C,
        view: &BlockView<'a>,
    ) -> Result<Judged<'a>, NoMemory>
        requires view { view.now.view ≤ self.now.state.known.views }
        requires earlier { view.now.cert.view < view.now.view }
        requires parent { is_stored self.now.state.known.store view.now.cert.block ≡ true }
        ensures { IfOk result (IsJudged (S.gives self.now.sealer) self.now.state
            (proposed_for (S.gives self.now.sealer) self.now.state view.now (proposed_reason (C.meaning checker.now) self.now.state.known view.now))) }
    {
        let block = view.own(self.alloc)?;
        let digest = name_of(view);
        match proposed_block_reason(&self.state, checker, view, &block, &digest)? {
            Reason::Done => Ok(Judged::Active(Accepted::Propose { block, digest })),
            reason => Ok(Judged::Idle(self.quiet(reason))),
        }
    }

    /// Stores the block, and votes.
    #[tactic(auto, unfolding(crate::specs::Propose::propose_done))]
    pub(crate) fn apply_propose(
        &mut self,
        block: Block,
        digest: &Digest,
    ) -> Result<Turned, NoMemory>
        requires storable { IsStorable self.old.state.known block digest.now }
        requires later { self.old.state.known.safety.voted < block.view }
        ensures ok { IfOk result (λ t.
            propose_done (S.gives self.old.sealer) self.old.state block ≡ record { reported = t; state = self.new.state }) }
        ensures seat { KeepsSeat S.Sealer self.old self.new }
    {
        let view = block.view;
        self.state.take_block(block, digest)?;
        self.cast_vote(view, digest)
    }

    /// Votes for a block that was just stored. If there is a next view, the vote carries the node's own order.
    #[tactic(auto, unfolding(crate::specs::Propose::voted))]
    fn cast_vote(&mut self, view: u32, block: &Digest) -> Result<Turned, NoMemory>
        requires view { view ≤ self.old.state.known.views }
        requires later { self.old.state.known.safety.voted < view }
        ensures ok { IfOk result (λ t.
            voted (S.gives self.old.sealer) self.old.state view block.now ≡ record { reported = t; state = self.new.state }) }
        ensures seat { KeepsSeat S.Sealer self.old self.new }
    {
        self.state.vote(view);
        if view < self.state.views() {
            self.state.start_order(view + 1);
            let order = self.state.draw(view + 1, block)?;
            self.send_vote(view, block, &order)
        } else {
            self.state.set_view(view);
            self.send_lone_vote(view, block)
        }
    }
}
