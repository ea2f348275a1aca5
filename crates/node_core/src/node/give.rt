//! Fetch and Give: a stored block is sent to the replica that asks, and a received block is stored.
ghost use Rattle.std.specs.Prelude.{◌≡◌, ◌≤◌, ◌<◌, [], true, is_some, IfOk, OnErr, IsTrue};
ghost use Rattle.block_store.specs.Store.{block_at, is_stored};
ghost use Rattle.node_core.specs.State.{KeepsSeat};
ghost use Rattle.node_core.specs.Give.{on_fetch, on_give, give_reason, given_reason, given_for, give_done};
ghost use Rattle.node_core.specs.Judged.{IsJudged, IsStorable};
ghost use Rattle.node_core.specs.Memory.{copies_or_fetches};

use super::{Node, name_of};
use crate::checks::{give_reason, given_block_reason};
use crate::judged::{Accepted, Judged};
use crate::{Reason, Turned};
use seal_kit::{Checker, Sealer};
use seq_base::{Block, Digest, NoMemory};
use wire_view::BlockView;

impl<S: Sealer> Node<S> {
    pub(crate) fn fetch(&self, from: u32, block: &Digest) -> Result<Turned, NoMemory>
        ensures ok { IfOk result (λ t. on_fetch self.now.state from block.now ≡ record { reported = t; state = self.now.state }) }
        ensures unsealed { IfOk result (λ t. t.sealed ≡ []) }
        ensures memory { OnErr result (IsTrue (is_some (block_at self.now.state.known.store block.now))) }
    {
        match self.state.block(block) {
            Some(block) => self.send_give(from, block),
            None => Ok(self.quiet(Reason::Orphan)),
        }
    }

    pub(crate) fn judge_give<'a, C: Checker>(
        &self,
        checker: &C,
        from: u32,
        view: &BlockView<'a>,
    ) -> Result<Judged<'a>, NoMemory>
        ensures judged { IfOk result (IsJudged (S.gives self.now.sealer) self.now.state (on_give (C.meaning checker.now) self.now.state from view.now)) }
        ensures memory { OnErr result (IsTrue (copies_or_fetches (give_reason (C.meaning checker.now) self.now.state.known view.now))) }
    {
        match give_reason(&self.state, checker, view) {
            Reason::Done => self.judge_given_block(checker, view),
            Reason::Orphan => Ok(Judged::Idle(self.send_fetch(from, &view.cert().block())?)),
            reason => Ok(Judged::Idle(self.quiet(reason))),
        }
    }

    fn judge_given_block<'a, C: Checker>(
        &self,
        checker: &C,
        view: &BlockView<'a>,
    ) -> Result<Judged<'a>, NoMemory>
        requires view { view.now.view ≤ self.now.state.known.views }
        requires earlier { view.now.cert.view < view.now.view }
        requires parent { is_stored self.now.state.known.store view.now.cert.block ≡ true }
        ensures { IfOk result (IsJudged (S.gives self.now.sealer) self.now.state
            (given_for self.now.state view.now (given_reason (C.meaning checker.now) self.now.state.known view.now))) }
    {
        let block = view.own(self.alloc)?;
        let digest = name_of(view);
        match given_block_reason(&self.state, checker, view, &block, &digest)? {
            Reason::Done => Ok(Judged::Active(Accepted::Give { block, digest })),
            reason => Ok(Judged::Idle(self.quiet(reason))),
        }
    }

    /// Stores the block.
    #[tactic(auto, unfolding(crate::specs::Give::give_done))]
    pub(crate) fn apply_give(&mut self, block: Block, digest: &Digest) -> Result<Turned, NoMemory>
        requires { IsStorable self.old.state.known block digest.now }
        ensures ok { IfOk result (λ t.
            give_done self.old.state block ≡ record { reported = t; state = self.new.state }) }
        ensures seat { KeepsSeat S.Sealer self.old self.new }
    {
        self.state.take_block(block, digest)?;
        Ok(self.quiet(Reason::Done))
    }
}
