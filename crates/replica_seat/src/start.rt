//! How the replicas of a run start.

ghost use Rattle.std.specs.Prelude.{◌≡◌, ◌<◌, ◌≤◌, ◌*◌, map, IfOk, All};
ghost use Rattle.fault_script.specs.Sealing.{signer_of};
ghost use Rattle.replica_seat.specs.Seats.{meaning, replica_of};
ghost use Rattle.replica_seat.specs.Opening.{fresh_replica, fresh_seat, links_from};

use crate::arrivals::Feed;
use crate::seat::Seat;
use fault_script::LinkState;
use node_core::Node;
use plan_text::Plan;
use seal_kit::Sealer;
use seq_base::NoMemory;
use std::alloc::Global;

/// A seat for each sealer. The sealers are those of one kit that was made for the plan.
pub fn seats_of<S: Sealer>(
    alloc: Global,
    plan: &Plan,
    sealers: Vec<S>,
) -> Result<Vec<Seat<S>>, NoMemory>
    requires replicas { All (λ s. S.replica s < plan.now.setting.n) sealers.items }
    requires room { All (λ s. 5 * plan.now.views ≤ S.capacity s) sealers.items }
    ensures { IfOk result (λ seats. map (replica_of (meaning S.replica S.gives)) seats.items
        ≡ map (λ s. fresh_replica plan.now (signer_of S.replica S.capacity S.gives S.made s)) sealers.items) }
{
    let mut sealers = sealers;
    let mut seats = Vec::new(alloc);
    'left: while !sealers.is_empty() {
        let sealer = sealers.remove(0);
        seats.push(new_seat(alloc, plan, sealer)?)?;
    }
    Ok(seats)
}

/// The seat of the replica whose sealer this is.
fn new_seat<S: Sealer>(alloc: Global, plan: &Plan, sealer: S) -> Result<Seat<S>, NoMemory>
    requires replica { S.replica sealer < plan.now.setting.n }
    requires room { 5 * plan.now.views ≤ S.capacity sealer }
    ensures { IfOk result (λ seat. replica_of (meaning S.replica S.gives) seat
        ≡ fresh_replica plan.now (signer_of S.replica S.capacity S.gives S.made sealer)) }
{
    let replica = sealer.replica();
    let node = Node::new(alloc, plan.setting, plan.views, sealer)?;
    seat_of(alloc, plan, replica, node)
}

/// The seat of a replica of the plan, with its node, before its first event.
pub fn seat_of<S: Sealer>(
    alloc: Global,
    plan: &Plan,
    replica: u32,
    node: Node<S>,
) -> Result<Seat<S>, NoMemory>
    ensures { IfOk result (λ seat. seat ≡ fresh_seat plan.now replica node) }
{
    Ok(Seat {
        node,
        feed: Feed::of(alloc, plan, replica)?,
        journal: Vec::new(alloc),
        links: links_from(alloc, plan, replica)?,
    })
}

/// The links from a replica to each.
#[tactic(auto, using(crate::proofs::Rounds::links_more))]
fn links_from(alloc: Global, plan: &Plan, from: u32) -> Result<Vec<LinkState>, NoMemory>
    ensures { IfOk result (λ links. links.items ≡ links_from plan.now from) }
{
    let mut links = Vec::new(alloc);
    let n = plan.setting.n();
    for to in 0..n {
        links.push(LinkState::new(alloc, plan.links.as_slice(), from, to)?)?;
    }
    Ok(links)
}
