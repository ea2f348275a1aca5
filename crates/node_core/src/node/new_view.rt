//! NewView: a replica calls for a view. With the calls of a quorum the leader asks for local orders.
ghost use Rattle.std.specs.Prelude.{◌≡◌, ◌≤◌, IfOk, OnErr, IsTrue};
ghost use Rattle.node_core.specs.State.{KeepsSeat, knowing};
ghost use Rattle.node_core.specs.See.{asked_for};
ghost use Rattle.node_core.specs.NewView.{on_new_view, new_view_reason, new_view_done, asks};
ghost use Rattle.node_core.specs.Judged.{IsJudged, IsInRun};
ghost use Rattle.node_core.specs.Memory.{fetches};

use super::Node;
use crate::checks::new_view_reason;
use crate::judged::{Accepted, Judged};
use crate::{Reason, Turned};
use seal_kit::{Checker, Sealer};
use seq_base::NoMemory;
use wire_view::CallView;

impl<S: Sealer> Node<S> {
    pub(crate) fn judge_new_view<'a, C: Checker>(
        &self,
        checker: &C,
        from: u32,
        call: CallView<'a>,
    ) -> Result<Judged<'a>, NoMemory>
        ensures judged { IfOk result
            (IsJudged (S.gives self.now.sealer) self.now.state (on_new_view (C.meaning checker.now) (S.gives self.now.sealer) self.now.state from call.entry)) }
        ensures memory { OnErr result (IsTrue (fetches (new_view_reason (C.meaning checker.now) self.now.state.known from call.entry))) }
    {
        match new_view_reason(&self.state, checker, from, &call) {
            Reason::Done => Ok(Judged::Active(Accepted::NewView { from, call })),
            Reason::Orphan => Ok(Judged::Idle(self.send_fetch(from, &call.cert().block())?)),
            reason => Ok(Judged::Idle(self.quiet(reason))),
        }
    }

    /// Counts the call. With those of a quorum the leader asks for local orders.
    #[tactic(auto, unfolding(crate::specs::NewView::new_view_done))]
    pub(crate) fn apply_new_view(
        &mut self,
        from: u32,
        call: &CallView<'_>,
    ) -> Result<Turned, NoMemory>
        requires { IsInRun self.old.state.known call.now }
        ensures ok { IfOk result (λ t.
            new_view_done (S.gives self.old.sealer) self.old.state from call.now ≡ record { reported = t; state = self.new.state }) }
        ensures seat { KeepsSeat S.Sealer self.old self.new }
    {
        self.state.join(from, call)?;
        if self.state.gathered_count(call.view()) != self.state.quorum() as usize {
            return Ok(self.quiet(Reason::Done));
        }
        self.ask_orders(call.view())
    }

    fn ask_orders(&mut self, view: u32) -> Result<Turned, NoMemory>
        requires { view ≤ self.old.state.known.views }
        ensures ok { IfOk result (λ t.
            asks (S.gives self.old.sealer) (knowing self.old.state (asked_for view self.old.state.known)) ≡ record { reported = t; state = self.new.state }) }
        ensures seat { KeepsSeat S.Sealer self.old self.new }
    {
        self.state.ask_for(view)?;
        self.send_ask()
    }
}
