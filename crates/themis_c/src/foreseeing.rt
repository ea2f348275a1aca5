//! Whether an event would change a replica.
ghost use Rattle.std.specs.Prelude.{◌≡◌, ◌≢◌, ◌↔◌, Some, None, false};
ghost use Rattle.std.specs.Option.{IsSomeAnd};
ghost use Rattle.node_core.specs.declared.event.Event.TheVariants.{Deliver};
ghost use Rattle.durable_node.specs.Log.{IsShort};
ghost use Rattle.replica_box.specs.Seats.{Seat};
ghost use Rattle.themis_c.specs.Answers.{IsOkOrNoMemory, IsPrepareStatus};
ghost use Rattle.themis_c.specs.Calls.{IsForeseen};

use crate::preparing::{delivered, is_short_delivery};
use crate::{HALTED, Handle, LONG, NO_MEMORY, OK, VACANT};
use node_core::Event;
use replica_box::{PrepareFault, Replica};
use std::alloc::Global;

/// Whether the turn on these bytes, sent by replica `from`, would change the replica now: 1 or 0. Nothing is prepared.
#[unsafe(no_mangle)]
pub extern "C" fn themis_would_change(
    alloc: Global,
    handle: &mut Handle,
    from: u32,
    bytes: &[u8],
    yes: &mut u32,
) -> u32
    ensures answer { result ≡ OK → IsSomeAnd handle.old.seat (λ seat. IsForeseen (Deliver from bytes.now) seat yes.new) }
    ensures status { (old : Seat) → handle.old.seat ≡ Some old → IsPrepareStatus result (Deliver from bytes.now) old }
    ensures same { handle.new.seat ≡ handle.old.seat }
    ensures kept { result ≢ OK → yes.new ≡ yes.old }
    ensures vacant { (result ≡ VACANT) ↔ (handle.old.seat ≡ None) }
{
    let Some(mut replica) = handle.take(alloc) else {
        return VACANT;
    };
    let status = foresee(alloc, &mut replica, from, bytes, yes);
    handle.put(replica);
    status
}

/// What can be refused without memory is refused first.
fn foresee(alloc: Global, replica: &mut Replica, from: u32, bytes: &[u8], yes: &mut u32) -> u32
    ensures answer { result ≡ OK → IsForeseen (Deliver from bytes.now) replica.old yes.new }
    ensures status { IsPrepareStatus result (Deliver from bytes.now) replica.old }
    ensures same { replica.new ≡ replica.old }
    ensures kept { result ≢ OK → yes.new ≡ yes.old }
    ensures held { result ≢ VACANT }
{
    if !is_short_delivery(from, bytes) {
        return LONG;
    }
    if replica.is_halted() {
        return HALTED;
    }
    match delivered(alloc, from, bytes) {
        Err(_) => NO_MEMORY,
        Ok(event) => ask(replica, &event, yes),
    }
}

/// Asks a replica that runs about an event that has room in a record.
fn ask(replica: &mut Replica, event: &Event, yes: &mut u32) -> u32
    requires { IsShort event.now × (replica.old.node.halted ≡ false) }
    ensures answer { result ≡ OK → IsForeseen event.now replica.old yes.new }
    ensures status { IsOkOrNoMemory result }
    ensures same { replica.new ≡ replica.old }
    ensures kept { result ≢ OK → yes.new ≡ yes.old }
{
    match replica.would_change(event) {
        Ok(changes) => {
            *yes = if changes { 1 } else { 0 };
            OK
        }
        Err(PrepareFault::Long) => LONG,
        Err(PrepareFault::Halted) => HALTED,
        Err(PrepareFault::NoMemory) => NO_MEMORY,
    }
}
