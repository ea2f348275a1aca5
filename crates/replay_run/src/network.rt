//! All replicas of a run, and what is in transit between them.

ghost use Rattle.std.specs.Prelude.{◌≡◌, ◌+◌, ◌<◌, ◌∷◌, [], ℕ, Err, false, is_none, IfOk, IfNone, IfSome, OnOk};
ghost use Rattle.replica_seat.specs.Seats.{meaning};
ghost use Rattle.replay_run.specs.Kept.{GoesKept, meant};
ghost use Rattle.replay_run.specs.World.{reseated, world_of};
ghost use Rattle.replay_run.specs.Acting.{event_at};
ghost use Rattle.replay_run.specs.Step.{advanced, arrived_at, counts, everyone, floor_of, give_arrivals, given_at, holds_due_at, has_all_due, next_for, replica_view, step, taken_at, tick_all, ticked_over};

use crate::keepers::{Keepers, StepFault};
use crate::seats::{process_at, seat_at, take_at};
use durable_node::Keeper;
use node_core::{Event, Node};
use plan_text::Plan;
use replica_seat::{Envelope, Pool, Seat};
use seal_kit::{Checker, Sealer};
use seq_base::{NoMemory, TxList};
use std::alloc::Global;
use std::collections::VecDeque;
use std::marker::Model;

/// The state of a run in progress.
#[derive(Drop)]
pub struct Network<S: Sealer> {
    pub alloc: Global,
    pub seats: Vec<Seat<S>>,
    pub due: TxList,
    pub queue: VecDeque<Envelope>,
    /// The one copy of equal packets that the journals hold.
    pub pool: Pool,
    pub turns: u32,
    pub ticks: u32,
    /// The replica that was last found to wait for due transactions, and whether it had no event since.
    pub waiting: u32,
    pub waits: bool,
}

impl<S: Sealer> Model for Network<S> {
    ghost use Rattle.replay_run.specs.World.{IsWaiting, Net};

    ghost Value = { Net S };

    ghost view = { λ a. record { seats = a.seats.items; due = a.due; queue = a.queue.items; turns = a.turns; ticks = a.ticks } };

    ghost invariant = { λ a. IsWaiting a.due a.seats.items a.waiting a.waits };
}

impl<S: Sealer> Network<S> {
    /// One event of the replica at a place: the event is logged, if that replica is logged, and then the replica makes
    /// its turn on it. If there is no replica, nothing happens.
    fn turn_at<K: Keeper, C: Checker>(
        &mut self,
        keepers: &mut Keepers<K>,
        plan: &Plan,
        checker: &C,
        at: u32,
        event: Event,
    ) -> Result<(), StepFault>
        ensures reported { OnOk result (world_of (meaning S.replica S.gives) self.new
            ≡ event_at (C.meaning checker.now) plan.now (world_of (meaning S.replica S.gives) self.old) at event) }
        ensures kept { GoesKept (meant K.Keeper) (meaning S.replica S.gives) (C.meaning checker.now) plan.now
            keepers.old self.old result keepers.new self.new }
        // If the event was not logged because the keeper failed, no replica has acted on it.
        ensures unkept { (replica : ℕ) → result ≡ Err (StepFault.Keep replica) → self.new ≡ self.old }
    {
        keepers.keep(at, &event)?;
        self.act_at(plan, checker, at, event)?;
        Ok(())
    }

    /// The turn of the replica at a place, and what it sends.
    fn act_at<C: Checker>(
        &mut self,
        plan: &Plan,
        checker: &C,
        at: u32,
        event: Event,
    ) -> Result<(), NoMemory>
        ensures { OnOk result (world_of (meaning S.replica S.gives) self.new
            ≡ event_at (C.meaning checker.now) plan.now (world_of (meaning S.replica S.gives) self.old) at event) }
    {
        self.waits = self.waits && self.waiting != at;
        let seats = self.seats.as_mut_slice();
        let pool = &mut self.pool;
        process_at(
            self.alloc,
            seats,
            plan,
            checker,
            at,
            event,
            pool,
            &mut self.queue,
        )
    }

    /// The replica at a place continues with this node. If there is no replica, nothing changes.
    pub fn reseat(&mut self, at: u32, node: Node<S>)
        ensures { self.new ≡ record self.old { seats = reseated self.old.seats at node } }
    {
        self.waits = false;
        seat_at(self.seats.as_mut_slice(), at, node);
    }

    /// Gives each replica what arrived by now.
    #[tactic(auto, unfolding(crate::specs::Step::give_arrivals), using(crate::proofs::LoopSteps::given_more))]
    fn give_arrivals<K: Keeper, C: Checker>(
        &mut self,
        keepers: &mut Keepers<K>,
        plan: &Plan,
        checker: &C,
    ) -> Result<(), StepFault>
        ensures world { OnOk result (world_of (meaning S.replica S.gives) self.new
            ≡ give_arrivals (C.meaning checker.now) plan.now (world_of (meaning S.replica S.gives) self.old)) }
        ensures kept { GoesKept (meant K.Keeper) (meaning S.replica S.gives) (C.meaning checker.now) plan.now
            keepers.old self.old result keepers.new self.new }
    {
        let n = plan.setting.n();
        for at in 0..n {
            self.give_at(keepers, plan, checker, at)?;
        }
        Ok(())
    }

    fn give_at<K: Keeper, C: Checker>(
        &mut self,
        keepers: &mut Keepers<K>,
        plan: &Plan,
        checker: &C,
        at: u32,
    ) -> Result<(), StepFault>
        ensures world { OnOk result (world_of (meaning S.replica S.gives) self.new
            ≡ given_at (C.meaning checker.now) plan.now (world_of (meaning S.replica S.gives) self.old) at) }
        ensures kept { GoesKept (meant K.Keeper) (meaning S.replica S.gives) (C.meaning checker.now) plan.now
            keepers.old self.old result keepers.new self.new }
    {
        let list = self.take_arrived(at)?;
        if list.as_slice().is_empty() {
            return Ok(());
        }
        self.turn_at(keepers, plan, checker, at, Event::Arrived(list))
    }

    /// Takes what arrived by now at the replica at a place.
    fn take_arrived(&mut self, at: u32) -> Result<TxList, NoMemory>
        ensures arrived { IfOk result (λ list. list ≡ arrived_at (world_of (meaning S.replica S.gives) self.old) at) }
        ensures taken { OnOk result (world_of (meaning S.replica S.gives) self.new
            ≡ taken_at (world_of (meaning S.replica S.gives) self.old) at) }
    {
        take_at(self.alloc, self.seats.as_mut_slice(), at, self.turns)
    }

    /// Whether each honest replica's batches hold every due transaction. A replica that was found to wait still waits
    /// if it had no event since.
    fn all_hold_due(&mut self, plan: &Plan) -> Result<bool, NoMemory>
        ensures done { IfOk result (λ done. done ≡ has_all_due plan.now (world_of (meaning S.replica S.gives) self.old)) }
        ensures same { self.new ≡ self.old }
    {
        if self.waits && counts(plan, self.waiting) {
            return Ok(false);
        }
        match self.find_waiting(plan)? {
            Some(at) => {
                self.waiting = at;
                self.waits = true;
                Ok(false)
            }
            None => Ok(true),
        }
    }

    /// An honest replica whose batches do not hold every due transaction. The one that was found last is checked first.
    #[tactic(auto, using(crate::proofs::WaitingReplicas::waits_not_done))]
    fn find_waiting(&self, plan: &Plan) -> Result<Option<u32>, NoMemory>
        ensures found { IfOk result (λ found. IfSome found (λ at. holds_due_at (world_of (meaning S.replica S.gives) self.now) at ≡ false)) }
        ensures done { IfOk result (λ found. is_none found ≡ has_all_due plan.now (world_of (meaning S.replica S.gives) self.now)) }
    {
        if counts(plan, self.waiting) && !self.holds_due_at(self.waiting)? {
            return Ok(Some(self.waiting));
        }
        self.first_waiting(plan)
    }

    #[tactic(auto, unfolding(crate::specs::Step::has_all_due), using(crate::proofs::LoopSteps::done_more))]
    fn first_waiting(&self, plan: &Plan) -> Result<Option<u32>, NoMemory>
        ensures found { IfOk result (λ found. IfSome found (λ at. holds_due_at (world_of (meaning S.replica S.gives) self.now) at ≡ false)) }
        ensures done { IfOk result (λ found. is_none found ≡ has_all_due plan.now (world_of (meaning S.replica S.gives) self.now)) }
    {
        let n = plan.setting.n();
        for at in 0..n {
            if !plan.faulty.has(at) && !self.holds_due_at(at)? {
                return Ok(Some(at));
            }
        }
        Ok(None)
    }

    fn holds_due_at(&self, at: u32) -> Result<bool, NoMemory>
        ensures { IfOk result (λ holds. holds ≡ holds_due_at (world_of (meaning S.replica S.gives) self.now) at) }
    {
        match self.seats.get(at as usize) {
            Some(seat) => seat.holds_due(self.alloc, &self.due),
            None => Ok(true),
        }
    }

    /// The greatest view of the honest replicas.
    #[tactic(auto, unfolding(crate::specs::Step::floor_of), using(crate::proofs::LoopSteps::floor_more))]
    fn floor(&self, plan: &Plan) -> u32
        ensures { result ≡ floor_of plan.now (world_of (meaning S.replica S.gives) self.now) }
    {
        let n = plan.setting.n();
        let mut floor = 0;
        for at in 0..n {
            if !plan.faulty.has(at) {
                floor = self.view_at(at).max(floor);
            }
        }
        floor
    }

    fn view_at(&self, at: u32) -> u32
        ensures { result ≡ replica_view (world_of (meaning S.replica S.gives) self.now) at }
    {
        match self.seats.get(at as usize) {
            Some(seat) => seat.node.view(),
            None => 0,
        }
    }

    /// A tick of each replica.
    #[tactic(auto, unfolding(crate::specs::Step::tick_all))]
    fn tick_all<K: Keeper, C: Checker>(
        &mut self,
        keepers: &mut Keepers<K>,
        plan: &Plan,
        checker: &C,
    ) -> Result<(), StepFault>
        ensures world { OnOk result (world_of (meaning S.replica S.gives) self.new
            ≡ tick_all (C.meaning checker.now) plan.now (world_of (meaning S.replica S.gives) self.old)) }
        ensures kept { GoesKept (meant K.Keeper) (meaning S.replica S.gives) (C.meaning checker.now) plan.now
            keepers.old self.old result keepers.new self.new }
    {
        let floor = self.floor(plan);
        self.tick_each(keepers, plan, checker, floor)
    }

    #[tactic(auto, using(crate::proofs::LoopSteps::ticked_more))]
    fn tick_each<K: Keeper, C: Checker>(
        &mut self,
        keepers: &mut Keepers<K>,
        plan: &Plan,
        checker: &C,
        floor: u32,
    ) -> Result<(), StepFault>
        ensures world { OnOk result (world_of (meaning S.replica S.gives) self.new
            ≡ ticked_over (C.meaning checker.now) plan.now floor (world_of (meaning S.replica S.gives) self.old) (everyone plan.now)) }
        ensures kept { GoesKept (meant K.Keeper) (meaning S.replica S.gives) (C.meaning checker.now) plan.now
            keepers.old self.old result keepers.new self.new }
    {
        let n = plan.setting.n();
        for at in 0..n {
            self.turn_at(keepers, plan, checker, at, Event::Tick { floor })?;
        }
        Ok(())
    }

    /// Makes one step of the run. Returns whether the run continues.
    #[tactic(auto, unfolding(crate::specs::Step::step))]
    pub fn step<K: Keeper, C: Checker>(
        &mut self,
        keepers: &mut Keepers<K>,
        plan: &Plan,
        checker: &C,
    ) -> Result<bool, StepFault>
        ensures world { IfOk result (λ goes_on. step (C.meaning checker.now) plan.now (world_of (meaning S.replica S.gives) self.old)
            ≡ record { goes_on = goes_on; world = world_of (meaning S.replica S.gives) self.new }) }
        ensures kept { GoesKept (meant K.Keeper) (meaning S.replica S.gives) (C.meaning checker.now) plan.now
            keepers.old self.old result keepers.new self.new }
    {
        self.give_arrivals(keepers, plan, checker)?;
        if self.all_hold_due(plan)? {
            return Ok(false);
        }
        self.advance(keepers, plan, checker)
    }

    /// Delivers the oldest envelope. If there is none, each replica has a tick. Does neither where the run had as many
    /// turns or ticks as it may have.
    #[tactic(auto, unfolding(crate::specs::Step::advanced))]
    fn advance<K: Keeper, C: Checker>(
        &mut self,
        keepers: &mut Keepers<K>,
        plan: &Plan,
        checker: &C,
    ) -> Result<bool, StepFault>
        ensures world { IfOk result (λ goes_on. advanced (C.meaning checker.now) plan.now (world_of (meaning S.replica S.gives) self.old)
            ≡ record { goes_on = goes_on; world = world_of (meaning S.replica S.gives) self.new }) }
        ensures kept { GoesKept (meant K.Keeper) (meaning S.replica S.gives) (C.meaning checker.now) plan.now
            keepers.old self.old result keepers.new self.new }
    {
        if self.turns >= plan.turns {
            return Ok(false);
        }
        match self.take() {
            Some(envelope) => {
                let Envelope { from, to, bytes } = envelope;
                let bytes = self.pool.pooled(bytes)?;
                self.turn_at(keepers, plan, checker, to, Event::Deliver { from, bytes })?;
                Ok(true)
            }
            None => self.tick(keepers, plan, checker),
        }
    }

    /// Takes the oldest envelope, which counts as a turn.
    fn take(&mut self) -> Option<Envelope>
        requires { self.old.turns < 4294967295 }
        ensures some { IfSome result (λ e. (self.old.queue ≡ e ∷ self.new.queue)
            × (self.new ≡ record self.old { queue = self.new.queue; turns = self.old.turns + 1 })) }
        ensures none { IfNone result ((self.old.queue ≡ []) × (self.new ≡ self.old)) }
    {
        let envelope = self.queue.pop_front()?;
        self.turns += 1;
        Some(envelope)
    }

    fn tick<K: Keeper, C: Checker>(
        &mut self,
        keepers: &mut Keepers<K>,
        plan: &Plan,
        checker: &C,
    ) -> Result<bool, StepFault>
        ensures world { IfOk result (λ goes_on. next_for (C.meaning checker.now) plan.now (world_of (meaning S.replica S.gives) self.old) []
            ≡ record { goes_on = goes_on; world = world_of (meaning S.replica S.gives) self.new }) }
        ensures kept { GoesKept (meant K.Keeper) (meaning S.replica S.gives) (C.meaning checker.now) plan.now
            keepers.old self.old result keepers.new self.new }
    {
        if self.ticks >= plan.ticks {
            return Ok(false);
        }
        self.ticks += 1;
        self.tick_all(keepers, plan, checker)?;
        Ok(true)
    }
}

fn counts(plan: &Plan, at: u32) -> bool
    ensures { result ≡ counts plan.now at }
{
    at < plan.setting.n() && !plan.faulty.has(at)
}
