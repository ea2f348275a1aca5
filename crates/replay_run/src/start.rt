//! The start of a run.

ghost use Rattle.std.specs.Prelude.{◌≡◌, List, map, IfOk};
ghost use Rattle.fault_script.specs.Sealing.{Signer};
ghost use Rattle.replica_seat.specs.Opening.{fresh_replica};
ghost use Rattle.replica_seat.specs.Seats.{meaning};
ghost use Rattle.replay_run.specs.World.{replicas_of, world_of};
ghost use Rattle.replay_run.specs.Play.{start_of};

use crate::network::Network;
use plan_text::Plan;
use replica_seat::{Pool, Seat, due_among};
use seal_kit::Sealer;
use seq_base::NoMemory;
use std::alloc::Global;
use std::collections::VecDeque;

/// The replicas of a run in their seats, with nothing in transit.
#[tactic(auto, using(crate::proofs::Shown::started))]
pub fn network_of<S: Sealer>(
    alloc: Global,
    plan: &Plan,
    seats: Vec<Seat<S>>,
) -> Result<Network<S>, NoMemory>
    ensures { IfOk result (λ network. (sealers : List Signer) → replicas_of (meaning S.replica S.gives) seats.items ≡ map (fresh_replica plan.now) sealers
        → world_of (meaning S.replica S.gives) network ≡ start_of plan.now sealers) }
{
    let due = due_among(alloc, plan, seats.as_slice())?;
    Ok(Network {
        alloc,
        seats,
        due,
        queue: VecDeque::new(alloc),
        pool: Pool::new(alloc),
        turns: 0,
        ticks: 0,
        waiting: 0,
        waits: false,
    })
}
