//! Judges an event by the tests of the turn table, and leaves the node as it is.
ghost use Rattle.std.specs.Prelude.{IfOk, OnOk, OnErr, IsTrue};
ghost use Rattle.node_core.specs.Judged.{IsJudged};
ghost use Rattle.node_core.specs.Memory.{judging_takes_memory, message_takes_memory};
ghost use Rattle.node_core.specs.Readable.{IsReadable};
ghost use Rattle.node_core.specs.Turn.{turn_of, on_arrived, on_message, on_tick};

use super::Node;
use crate::judged::{Accepted, Judged};
use crate::{Event, Reason};
use seal_kit::{Checker, Sealer};
use seq_base::{NoMemory, Tx};
use wire_view::{MessageView, read};

impl<S: Sealer> Node<S> {
    #[tactic(auto, unfolding(crate::specs::Memory::judging_takes_memory))]
    pub(crate) fn judge<'a, C: Checker>(
        &self,
        checker: &C,
        event: &'a Event,
    ) -> Result<Judged<'a>, NoMemory>
        ensures judged { IfOk result
            (IsJudged (S.gives self.now.sealer) self.now.state (turn_of (C.meaning checker.now) (S.gives self.now.sealer) self.now.state event.now)) }
        ensures readable { OnOk result (IsReadable event.now) }
        ensures memory { OnErr result (IsTrue (judging_takes_memory (C.meaning checker.now) self.now.state.known event.now)) }
    {
        match event {
            Event::Arrived(list) => Ok(self.judge_arrival(list.as_slice())),
            Event::Deliver { from, bytes } => match read(bytes.as_slice()) {
                Ok(message) => self.judge_message(checker, *from, message),
                Err(fault) => Ok(Judged::Idle(self.quiet(Reason::BadWire(fault)))),
            },
            Event::Tick { floor } => Ok(self.judge_tick(*floor)),
        }
    }

    fn judge_arrival<'a>(&self, list: &'a [Tx]) -> Judged<'a>
        ensures { IsJudged (S.gives self.now.sealer) self.now.state (on_arrived self.now.state list.now) result }
    {
        if list.is_empty() {
            Judged::Idle(self.quiet(Reason::Done))
        } else {
            Judged::Active(Accepted::Arrived(list))
        }
    }

    #[tactic(auto, unfolding(crate::specs::Turn::on_tick))]
    fn judge_tick(&self, floor: u32) -> Judged<'static>
        ensures { IsJudged (S.gives self.now.sealer) self.now.state (on_tick (S.gives self.now.sealer) self.now.state floor) result }
    {
        let view = self.state.view().max(floor);
        if view >= self.state.views() {
            Judged::Idle(self.quiet(Reason::ViewLimit))
        } else {
            Judged::Active(Accepted::Tick { view: view + 1 })
        }
    }

    fn judge_message<'a, C: Checker>(
        &self,
        checker: &C,
        from: u32,
        message: MessageView<'a>,
    ) -> Result<Judged<'a>, NoMemory>
        ensures judged { IfOk result (IsJudged (S.gives self.now.sealer) self.now.state
            (on_message (C.meaning checker.now) (S.gives self.now.sealer) self.now.state from message.entry)) }
        ensures memory { OnErr result (IsTrue (message_takes_memory (C.meaning checker.now) self.now.state.known from message.entry)) }
    {
        match message {
            MessageView::NewView(call) => self.judge_new_view(checker, from, call),
            MessageView::Ask(call) => self.judge_ask(checker, from, call),
            MessageView::Order(order) => self.judge_order(checker, from, &order),
            MessageView::Propose(propose) => self.judge_propose(checker, from, &propose),
            MessageView::Vote(vote) => self.judge_vote(checker, from, vote),
            MessageView::Fetch(block) => Ok(Judged::Idle(self.fetch(from, &block)?)),
            MessageView::Give(block) => self.judge_give(checker, from, &block),
        }
    }
}
