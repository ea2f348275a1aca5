//! Applies an accepted event to the node. Each kind of message has its effect in the file of the kind.
ghost use Rattle.std.specs.Prelude.{◌≡◌, ◌≤◌, IfOk};
ghost use Rattle.node_core.specs.State.{KeepsSeat, knowing};
ghost use Rattle.node_core.specs.Judged.{applied, IsPassed};
ghost use Rattle.node_core.specs.Turn.{on_arrived, calls};

use super::Node;
use crate::judged::Accepted;
use crate::{Reason, Turned};
use seal_kit::Sealer;
use seq_base::{NoMemory, Tx};

impl<S: Sealer> Node<S> {
    pub(crate) fn apply(&mut self, accepted: Accepted<'_>) -> Result<Turned, NoMemory>
        requires { IsPassed self.old.state.known accepted }
        ensures ok { IfOk result (λ t.
            applied (S.gives self.old.sealer) self.old.state accepted.entry ≡ record { reported = t; state = self.new.state }) }
        ensures seat { KeepsSeat S.Sealer self.old self.new }
    {
        match accepted {
            Accepted::Arrived(list) => self.apply_arrival(list),
            Accepted::Tick { view } => self.apply_tick(view),
            Accepted::NewView { from, call } => self.apply_new_view(from, &call),
            Accepted::Ask { from, call } => self.apply_ask(from, &call),
            Accepted::Order(sealed) => self.apply_order(sealed),
            Accepted::Propose { block, digest } => self.apply_propose(block, &digest),
            Accepted::Vote { vote, order } => self.apply_vote(&vote, order),
            Accepted::Give { block, digest } => self.apply_give(block, &digest),
        }
    }

    fn apply_arrival(&mut self, list: &[Tx]) -> Result<Turned, NoMemory>
        ensures ok { IfOk result (λ t. on_arrived self.old.state list.now ≡ record { reported = t; state = self.new.state }) }
        ensures seat { KeepsSeat S.Sealer self.old self.new }
    {
        self.state.arrive(list)?;
        Ok(self.quiet(Reason::Done))
    }

    fn apply_tick(&mut self, view: u32) -> Result<Turned, NoMemory>
        requires { view ≤ self.old.state.known.views }
        ensures ok { IfOk result (λ t.
            calls (S.gives self.old.sealer) (knowing self.old.state (record self.old.state.known { view = view }))
            ≡ record { reported = t; state = self.new.state }) }
        ensures seat { KeepsSeat S.Sealer self.old self.new }
    {
        self.state.set_view(view);
        self.send_new_view()
    }
}
