//! Which events have a record.
ghost use Rattle.std.specs.Prelude.{◌≡◌, ◌↔◌, List, true};
ghost use Rattle.node_core.specs.declared.event.Event.{Event};
ghost use Rattle.node_core.specs.Idle.{NoneFormed};
ghost use Rattle.replica_box.specs.Hosting.{Prepared};
ghost use Rattle.replica_box.specs.Seats.{IsAgain, IsPrepared, Seat, outcome_of};
ghost use Rattle.host_laws.specs.Hosts.{File, Host, Running};
ghost use Rattle.host_laws.specs.Roles.{Secret};
ghost use Rattle.host_laws.specs.Steps.{Deed, IsHostRun};

use crate::below::log_laws;

/// What is prepared in a run of a host, and when an event has to be prepared again.
pub fn prepared_records_are_exact()
    // No open replica of a run holds votes whose certificate was formed.
    ensures reached { (secret : Secret) (steps : List (Deed × Host)) (host : Host) (seat : Seat) (file : File) → IsHostRun secret steps host
        → host.phase ≡ Running seat file → NoneFormed seat.node.state.known }
    // So an event has a record exactly if its turn would change the replica.
    ensures exact { (secret : Secret) (steps : List (Deed × Host)) (host : Host) (seat : Seat) (file : File) (event : Event) (ready : Prepared)
        → IsHostRun secret steps host → host.phase ≡ Running seat file → IsPrepared event seat ready
        → (ready.has_record ≡ true) ↔ (¬ ((outcome_of seat event).state ≡ seat.node.state)) }
    // And the replica asks for an event again only if its turn would change the replica now.
    ensures again { (secret : Secret) (steps : List (Deed × Host)) (host : Host) (seat next : Seat) (file : File) → IsHostRun secret steps host
        → host.phase ≡ Running seat file → (again : IsAgain seat next) → ¬ ((outcome_of seat again.first.event).state ≡ seat.node.state) }
{
    log_laws();
}
