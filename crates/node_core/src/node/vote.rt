//! Vote: the next leader keeps it. The votes of a quorum certify their block.
ghost use Rattle.std.specs.Prelude.{◌≡◌, ◌≤◌, ◌<◌, ◌+◌, is_some, IfOk, IfSome, OnErr, IsTrue};
ghost use Rattle.quorum_cert.specs.Boxes.{bare};
ghost use Rattle.node_core.specs.State.{KeepsSeat, knowing};
ghost use Rattle.node_core.specs.Order.{proposes};
ghost use Rattle.node_core.specs.Vote.{on_vote, vote_reason, voted_reason, voted_for, vote_done, certified, certified_if, next_block, proposing_next};
ghost use Rattle.node_core.specs.Judged.{IsJudged};
ghost use Rattle.node_core.specs.Memory.{vote_takes_memory};

use super::Node;
use crate::checks::{owned_vote_reason, vote_reason};
use crate::judged::{Accepted, Judged};
use crate::state::Formed;
use crate::{Reason, Turned};
use seal_kit::{Checker, Sealer};
use seq_base::{CertVote, NoMemory, Seal, SealedOrder};
use std::alloc::Global;
use wire_view::VoteView;

impl<S: Sealer> Node<S> {
    pub(crate) fn judge_vote<'a, C: Checker>(
        &self,
        checker: &C,
        from: u32,
        vote: VoteView<'a>,
    ) -> Result<Judged<'a>, NoMemory>
        ensures judged { IfOk result
            (IsJudged (S.gives self.now.sealer) self.now.state (on_vote (C.meaning checker.now) (S.gives self.now.sealer) self.now.state from vote.entry)) }
        ensures memory { OnErr result (IsTrue (vote_takes_memory (vote_reason (C.meaning checker.now) self.now.state.known from vote.entry) vote.entry.order)) }
    {
        match vote_reason(&self.state, checker, from, &vote) {
            Reason::Done => self.judge_owned_vote(from, vote),
            Reason::Orphan => Ok(Judged::Idle(self.send_fetch(from, &vote.block())?)),
            reason => Ok(Judged::Idle(self.quiet(reason))),
        }
    }

    fn judge_owned_vote<'a>(&self, from: u32, vote: VoteView<'a>) -> Result<Judged<'a>, NoMemory>
        requires within { vote.vote.view ≤ self.now.state.known.views }
        requires own { vote.vote.replica ≡ from }
        requires higher { self.now.state.known.high.view < vote.vote.view }
        ensures judged { IfOk result (IsJudged (S.gives self.now.sealer) self.now.state
            (voted_for (S.gives self.now.sealer) self.now.state vote.entry (voted_reason self.now.state.known from vote.entry.vote vote.entry.order))) }
        ensures memory { OnErr result (IsTrue (is_some vote.entry.order)) }
    {
        let order = owned_order(self.alloc, &vote)?;
        match owned_vote_reason(&self.state, from, &vote, order.as_ref())? {
            Reason::Done => Ok(Judged::Active(Accepted::Vote { vote, order })),
            reason => Ok(Judged::Idle(self.quiet(reason))),
        }
    }

    /// Keeps the vote. With those of a quorum its block is certified. If there is a next view, the leader then proposes
    /// the next block immediately, from the orders that the votes carried.
    #[tactic(auto, unfolding(crate::specs::Vote::vote_done))]
    pub(crate) fn apply_vote(
        &mut self,
        view: &VoteView<'_>,
        order: Option<SealedOrder>,
    ) -> Result<Turned, NoMemory>
        requires { view.now.vote.view ≤ self.old.state.known.views }
        ensures ok { IfOk result (λ t.
            vote_done (S.gives self.old.sealer) self.old.state view.now.vote order ≡ record { reported = t; state = self.new.state }) }
        ensures seat { KeepsSeat S.Sealer self.old self.new }
    {
        let vote = owned_vote(self.alloc, view)?;
        let formed = self
            .state
            .keep_vote(view.view(), &view.block(), vote, order)?;
        self.certify_if(view.view(), formed)
    }

    fn certify_if(&mut self, view: u32, formed: Option<Formed>) -> Result<Turned, NoMemory>
        requires within { view ≤ self.old.state.known.views }
        requires same { IfSome formed (λ f. f.cert.view ≡ view) }
        ensures ok { IfOk result (λ t.
            certified_if (S.gives self.old.sealer) self.old.state formed ≡ record { reported = t; state = self.new.state }) }
        ensures seat { KeepsSeat S.Sealer self.old self.new }
    {
        match formed {
            Some(formed) => self.certify(formed),
            None => Ok(self.quiet(Reason::Done)),
        }
    }

    /// Certifies a block that got the votes of a quorum.
    #[tactic(auto, unfolding(crate::specs::Vote::certified))]
    fn certify(&mut self, formed: Formed) -> Result<Turned, NoMemory>
        requires { formed.cert.view ≤ self.old.state.known.views }
        ensures ok { IfOk result (λ t.
            certified (S.gives self.old.sealer) self.old.state formed ≡ record { reported = t; state = self.new.state }) }
        ensures seat { KeepsSeat S.Sealer self.old self.new }
    {
        let view = formed.cert.view;
        self.state.see_owned(&formed.cert)?;
        if view == self.state.views() {
            return Ok(self.quiet(Reason::Done));
        }
        self.propose_next(view + 1, formed)
    }

    fn propose_next(&mut self, view: u32, formed: Formed) -> Result<Turned, NoMemory>
        requires next { view ≡ formed.cert.view + 1 }
        requires within { view ≤ self.old.state.known.views }
        ensures ok { IfOk result (λ t.
            proposes (S.gives self.old.sealer) (knowing self.old.state (proposing_next formed.cert self.old.state.known)) (next_block formed)
            ≡ record { reported = t; state = self.new.state }) }
        ensures seat { KeepsSeat S.Sealer self.old self.new }
    {
        let block = self.state.next_block(view, formed)?;
        self.send_propose(&block)
    }
}

/// The vote of a message, in the form in which it is kept.
fn owned_vote(alloc: Global, view: &VoteView<'_>) -> Result<CertVote, NoMemory>
    ensures { IfOk result (λ vote. vote ≡ bare view.now.vote) }
{
    Ok(CertVote {
        replica: view.replica(),
        seal: Seal::of(Vec::from_slice(alloc, view.seal())?),
    })
}

/// The order that a vote carries.
fn owned_order(alloc: Global, view: &VoteView<'_>) -> Result<Option<SealedOrder>, NoMemory>
    ensures value { IfOk result (λ order. order ≡ view.now.order) }
    ensures memory { OnErr result (IsTrue (is_some view.now.order)) }
{
    match view.order() {
        Some(order) => Ok(Some(order.own(alloc)?)),
        None => Ok(None),
    }
}
