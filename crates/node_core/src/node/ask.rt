//! Ask: the node draws its local order, and sends it to the leader.
ghost use Rattle.std.specs.Prelude.{◌≡◌, IfOk, OnErr, IsTrue};
ghost use Rattle.node_core.specs.State.{KeepsSeat};
ghost use Rattle.node_core.specs.Ask.{on_ask, ask_reason, ask_done};
ghost use Rattle.node_core.specs.Judged.{IsJudged, IsInRun};
ghost use Rattle.node_core.specs.Memory.{fetches};

use super::Node;
use crate::checks::ask_reason;
use crate::judged::{Accepted, Judged};
use crate::{Reason, Turned};
use seal_kit::{Checker, Sealer};
use seq_base::NoMemory;
use wire_view::CallView;

impl<S: Sealer> Node<S> {
    pub(crate) fn judge_ask<'a, C: Checker>(
        &self,
        checker: &C,
        from: u32,
        call: CallView<'a>,
    ) -> Result<Judged<'a>, NoMemory>
        ensures judged { IfOk result
            (IsJudged (S.gives self.now.sealer) self.now.state (on_ask (C.meaning checker.now) (S.gives self.now.sealer) self.now.state from call.entry)) }
        ensures memory { OnErr result (IsTrue (fetches (ask_reason (C.meaning checker.now) self.now.state.known from call.entry))) }
    {
        match ask_reason(&self.state, checker, from, &call) {
            Reason::Done => Ok(Judged::Active(Accepted::Ask { from, call })),
            Reason::Orphan => Ok(Judged::Idle(self.send_fetch(from, &call.cert().block())?)),
            reason => Ok(Judged::Idle(self.quiet(reason))),
        }
    }

    /// Sends the node's own order to the leader.
    #[tactic(auto, unfolding(crate::specs::Ask::ask_done))]
    pub(crate) fn apply_ask(&mut self, from: u32, call: &CallView<'_>) -> Result<Turned, NoMemory>
        requires { IsInRun self.old.state.known call.now }
        ensures ok { IfOk result (λ t.
            ask_done (S.gives self.old.sealer) self.old.state from call.now ≡ record { reported = t; state = self.new.state }) }
        ensures seat { KeepsSeat S.Sealer self.old self.new }
    {
        let cert = call.cert();
        self.state.see(&cert)?;
        self.state.start_order(call.view());
        let order = self.state.draw(call.view(), &cert.block())?;
        self.send_order(from, &order)
    }
}
