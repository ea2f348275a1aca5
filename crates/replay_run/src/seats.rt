//! Operations on one of all seats.

ghost use Rattle.std.specs.Prelude.{◌≡◌, ◌≢◌, ℕ, List, slice_get, IfOk, OnOk};
ghost use Rattle.seq_base.specs.declared.tx.Tx.{Tx};
ghost use Rattle.replica_seat.specs.Seats.{meaning};
ghost use Rattle.replay_run.specs.World.{World, replicas_of, reseated, waits_at};
ghost use Rattle.replay_run.specs.Acting.{event_at};
ghost use Rattle.replay_run.specs.Step.{arrived_at, taken_at};

use node_core::{Event, Node};
use plan_text::Plan;
use replica_seat::{Envelope, Pool, Seat};
use seal_kit::{Checker, Sealer};
use seq_base::{NoMemory, TxList};
use std::alloc::Global;
use std::collections::VecDeque;

/// One event of the seat at a place. If there is no seat, nothing happens.
pub(crate) fn process_at<S: Sealer, C: Checker>(
    alloc: Global,
    seats: &mut [Seat<S>],
    plan: &Plan,
    checker: &C,
    at: u32,
    event: Event,
    pool: &mut Pool,
    queue: &mut VecDeque<Envelope>,
) -> Result<(), NoMemory>
    ensures reported { OnOk result ((w : World) → w.replicas ≡ replicas_of (meaning S.replica S.gives) seats.old → w.queue ≡ queue.old.items
        → event_at (C.meaning checker.now) plan.now w at event
        ≡ record w { replicas = replicas_of (meaning S.replica S.gives) seats.new; queue = queue.new.items }) }
    ensures others { (k : ℕ) → k ≢ at → slice_get seats.new k ≡ slice_get seats.old k }
{
    let place = at as usize;
    if place >= seats.len() {
        return Ok(());
    }
    let seat = &mut seats[place];
    seat.process(alloc, plan, checker, at, event, pool, queue)
}

/// Takes what arrived by a count of turns at the seat at a place. If there is no seat, there are no arrivals.
pub(crate) fn take_at<S: Sealer>(
    alloc: Global,
    seats: &mut [Seat<S>],
    at: u32,
    turns: u32,
) -> Result<TxList, NoMemory>
    ensures arrived { IfOk result (λ list. (w : World) → w.replicas ≡ replicas_of (meaning S.replica S.gives) seats.old → w.turns ≡ turns
        → list ≡ arrived_at w at) }
    ensures taken { OnOk result ((w : World) → w.replicas ≡ replicas_of (meaning S.replica S.gives) seats.old → w.turns ≡ turns
        → taken_at w at ≡ record w { replicas = replicas_of (meaning S.replica S.gives) seats.new }) }
    ensures waits { (due : List Tx) (k : ℕ) → waits_at due seats.new k ≡ waits_at due seats.old k }
{
    let place = at as usize;
    if place >= seats.len() {
        return Ok(TxList::of(Vec::new(alloc)));
    }
    let seat = &mut seats[place];
    seat.take_arrived(alloc, turns)
}

/// Gives this node to the seat at a place. If there is no seat, the node is dropped.
pub(crate) fn seat_at<S: Sealer>(seats: &mut [Seat<S>], at: u32, node: Node<S>)
    ensures { seats.new ≡ reseated seats.old at node }
{
    let place = at as usize;
    if place >= seats.len() {
        return;
    }
    let seat = &mut seats[place];
    seat.go_on_with(node);
}
