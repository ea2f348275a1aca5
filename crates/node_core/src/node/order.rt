//! Order: the leader keeps it. With the orders of a quorum it proposes a block.
ghost use Rattle.std.specs.Prelude.{◌≡◌, ◌≢◌, IfOk, OnErr, IsTrue};
ghost use Rattle.node_core.specs.State.{KeepsSeat};
ghost use Rattle.node_core.specs.Order.{on_order, order_reason, kept_order_reason, kept_order_for, order_done, proposes_if};
ghost use Rattle.node_core.specs.Judged.{IsJudged};
ghost use Rattle.node_core.specs.Memory.{copies};

use super::Node;
use crate::checks::{order_reason, owned_order_reason};
use crate::judged::{Accepted, Judged};
use crate::{Reason, Turned};
use seal_kit::{Checker, Sealer};
use seq_base::{Block, NoMemory, SealedOrder};
use wire_view::OrderView;

impl<S: Sealer> Node<S> {
    pub(crate) fn judge_order<'a, C: Checker>(
        &self,
        checker: &C,
        from: u32,
        order: &OrderView<'a>,
    ) -> Result<Judged<'a>, NoMemory>
        ensures judged { IfOk result
            (IsJudged (S.gives self.now.sealer) self.now.state (on_order (C.meaning checker.now) (S.gives self.now.sealer) self.now.state from order.now)) }
        ensures memory { OnErr result (IsTrue (copies (order_reason (C.meaning checker.now) self.now.state.known from order.now))) }
    {
        match order_reason(&self.state, checker, from, order) {
            Reason::Done => self.judge_owned_order(from, order),
            reason => Ok(Judged::Idle(self.quiet(reason))),
        }
    }

    fn judge_owned_order<'a>(
        &self,
        from: u32,
        order: &OrderView<'a>,
    ) -> Result<Judged<'a>, NoMemory>
        requires { self.now.state.known.asked ≢ self.now.state.known.proposed }
        ensures { IfOk result (IsJudged (S.gives self.now.sealer) self.now.state
            (kept_order_for (S.gives self.now.sealer) self.now.state order.now (kept_order_reason self.now.state.known from order.now.order))) }
    {
        let sealed = order.own(self.alloc)?;
        match owned_order_reason(&self.state, from, &sealed.order)? {
            Reason::Done => Ok(Judged::Active(Accepted::Order(sealed))),
            reason => Ok(Judged::Idle(self.quiet(reason))),
        }
    }

    /// Keeps the order. With those of a quorum the leader proposes a block.
    #[tactic(auto, unfolding(crate::specs::Order::order_done))]
    pub(crate) fn apply_order(&mut self, sealed: SealedOrder) -> Result<Turned, NoMemory>
        ensures ok { IfOk result (λ t.
            order_done (S.gives self.old.sealer) self.old.state sealed ≡ record { reported = t; state = self.new.state }) }
        ensures seat { KeepsSeat S.Sealer self.old self.new }
    {
        let block = self.state.keep_order(sealed)?;
        self.propose_if(block)
    }

    fn propose_if(&mut self, block: Option<Block>) -> Result<Turned, NoMemory>
        ensures ok { IfOk result (λ t.
            proposes_if (S.gives self.old.sealer) self.old.state block ≡ record { reported = t; state = self.new.state }) }
        ensures seat { KeepsSeat S.Sealer self.old self.new }
    {
        match block {
            Some(block) => self.send_propose(&block),
            None => Ok(self.quiet(Reason::Done)),
        }
    }
}
