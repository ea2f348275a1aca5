//! Turns.
ghost use Rattle.std.specs.Prelude.{◌≡◌, ◌≢◌, ◌↔◌, Some, None, Err, true};
ghost use Rattle.std.specs.Option.{IsSomeAnd};
ghost use Rattle.replica_box.specs.Acting.{Acts};
ghost use Rattle.replica_box.specs.Seats.{IsAgain, Seat};
ghost use Rattle.themis_c.specs.Answers.{IsActStatus};
ghost use Rattle.themis_c.specs.Calls.{IsActed};
ghost use Rattle.themis_c.specs.Statuses.{code_of};

use crate::{AGAIN, HALTED, Handle, NO_MEMORY, OK, UNREADY, VACANT};
use node_core::Reason;
use replica_box::{ActFault, Replica};
use std::alloc::Global;

/// The turn on the event that was prepared first. The host has made its record durable before, if it has one. `reason` is
/// then why the turn did what it did: 0 where it did what the event is for, or the number of the first test that refused
/// it. [`AGAIN`] says that the event, which has no record, would now change the replica: it is no longer prepared, and
/// nothing else was done.
#[unsafe(no_mangle)]
pub extern "C" fn themis_act(alloc: Global, handle: &mut Handle, reason: &mut u32) -> u32
    ensures status { (old : Seat) → handle.old.seat ≡ Some old → IsActStatus result old }
    ensures vacant { (result ≡ VACANT) ↔ (handle.old.seat ≡ None) }
    // What it did. Any other status leaves the replica as it was.
    ensures acted { result ≡ OK → (old : Seat) → handle.old.seat ≡ Some old → IsSomeAnd handle.new.seat (λ new. IsActed reason.new old new) }
    ensures halted { result ≡ HALTED → IsSomeAnd handle.new.seat (λ seat. seat.node.halted ≡ true) }
    ensures stopped { result ≡ HALTED → (old : Seat) → handle.old.seat ≡ Some old → IsSomeAnd handle.new.seat (λ new. Acts (Err ActFault.Halted) old new) }
    ensures again { result ≡ AGAIN → (old : Seat) → handle.old.seat ≡ Some old → IsSomeAnd handle.new.seat (IsAgain old) }
    ensures refused { result ≢ OK → result ≢ HALTED → result ≢ AGAIN → handle.new.seat ≡ handle.old.seat }
    ensures held { (handle.new.seat ≡ None) ↔ (handle.old.seat ≡ None) }
{
    let Some(mut replica) = handle.take(alloc) else {
        return VACANT;
    };
    let status = act(&mut replica, reason);
    handle.put(replica);
    status
}

fn act(replica: &mut Replica, reason: &mut u32) -> u32
    ensures status { IsActStatus result replica.old }
    ensures acted { result ≡ OK → IsActed reason.new replica.old replica.new }
    ensures halted { result ≡ HALTED → replica.new.node.halted ≡ true }
    ensures stopped { result ≡ HALTED → Acts (Err ActFault.Halted) replica.old replica.new }
    ensures again { result ≡ AGAIN → IsAgain replica.old replica.new }
    ensures refused { result ≢ OK → result ≢ HALTED → result ≢ AGAIN → replica.new ≡ replica.old }
    ensures held { result ≢ VACANT }
{
    match replica.act() {
        Ok(why) => {
            *reason = code_of(why);
            OK
        }
        Err(ActFault::Unready) => UNREADY,
        Err(ActFault::Halted) => HALTED,
        Err(ActFault::Again) => AGAIN,
        Err(ActFault::NoMemory) => NO_MEMORY,
    }
}

/// The number of a reason.
fn code_of(reason: Reason) -> u32
    ensures { result ≡ code_of reason }
{
    match reason {
        Reason::Done => 0,
        Reason::BadWire(_) => 1,
        Reason::Foreign => 2,
        Reason::ViewLimit => 3,
        Reason::NotLeader => 4,
        Reason::OldView => 5,
        Reason::BadSeal => 6,
        Reason::BadCert => 7,
        Reason::Orphan => 8,
        Reason::Misfit => 9,
        Reason::Clash => 10,
        Reason::Unsafe => 11,
        Reason::Repeat => 12,
    }
}
