//! What of it arrives now.
ghost use Rattle.std.specs.Prelude.{◌≡◌, ◌≢◌, ◌↔◌, ◌<◌, ◌≤◌, ◌+◌, ◌++◌, Some, None, drop, length, map, take};
ghost use Rattle.std.specs.Option.{IsSomeAnd};
ghost use Rattle.intake.specs.Offered.{HasNamed};
ghost use Rattle.replica_box.specs.Seats.{Seat};
ghost use Rattle.themis_c.specs.Answers.{IsOkOrNoMemory};
ghost use Rattle.themis_c.specs.Calls.{c_tx};
ghost use Rattle.themis_c.specs.Receipts.{HasCopiedArrivals, HasCopiedProposed};

use crate::state::{c_tx, put_txs};
use crate::{CTx, Handle, NO_MEMORY, OK, SHORT, VACANT};
use intake::Arrivals;
use replica_box::Replica;
use seq_base::Tx;
use std::alloc::Global;

/// No call lets more arrive.
const MAX_ARRIVALS: usize = 480;

/// Copies what arrives now to the start of a buffer, which has room for 480, and writes how many they are, and how many of
/// them are exceptions. The host passes them on as an event (`themis_prepare_arrived`), in this order.
#[unsafe(no_mangle)]
pub extern "C" fn themis_arrive(
    alloc: Global,
    handle: &mut Handle,
    into: &mut [CTx],
    count: &mut usize,
    given: &mut usize,
) -> u32
    ensures arrived { result ≡ OK → (old : Seat) → handle.old.seat ≡ Some old
        → IsSomeAnd handle.new.seat (λ new. HasCopiedArrivals old new into.old into.new count.new given.new × (new ≡ record old { desk = new.desk })) }
    ensures refused { result ≡ NO_MEMORY → (old : Seat) → handle.old.seat ≡ Some old
        → IsSomeAnd handle.new.seat (λ new. HasNamed old.desk new.desk × (new ≡ record old { desk = new.desk })) }
    ensures short { handle.old.seat ≢ None → (result ≡ SHORT) ↔ (length into.old < 480) }
    ensures same { result ≡ SHORT → handle.new.seat ≡ handle.old.seat }
    ensures kept { result ≢ OK → into.new ≡ into.old }
    ensures uncounted { result ≢ OK → (count.new ≡ count.old) × (given.new ≡ given.old) }
    ensures status { handle.old.seat ≢ None → result ≢ SHORT → IsOkOrNoMemory result }
    ensures vacant { (result ≡ VACANT) ↔ (handle.old.seat ≡ None) }
{
    let Some(mut replica) = handle.take(alloc) else {
        return VACANT;
    };
    let status = arrive(&mut replica, into, count, given);
    handle.put(replica);
    status
}

fn arrive(replica: &mut Replica, into: &mut [CTx], count: &mut usize, given: &mut usize) -> u32
    ensures arrived { result ≡ OK → HasCopiedArrivals replica.old replica.new into.old into.new count.new given.new }
    ensures refused { result ≡ NO_MEMORY → HasNamed replica.old.desk replica.new.desk }
    ensures rest { replica.new ≡ record replica.old { desk = replica.new.desk } }
    ensures short { (result ≡ SHORT) ↔ (length into.old < 480) }
    ensures same { result ≡ SHORT → replica.new ≡ replica.old }
    ensures kept { result ≢ OK → into.new ≡ into.old }
    ensures uncounted { result ≢ OK → (count.new ≡ count.old) × (given.new ≡ given.old) }
    ensures status { result ≢ SHORT → IsOkOrNoMemory result }
{
    if into.len() < MAX_ARRIVALS {
        return SHORT;
    }
    match replica.arrive() {
        Err(_) => NO_MEMORY,
        Ok(arrivals) => {
            *given = arrivals.given.len();
            *count = arrivals.txs.len() + arrivals.given.len();
            put_arrivals(&arrivals, into);
            OK
        }
    }
}

/// The same while a session is closing: only what blocks name and the certified chain proposes, with all that wait and have
/// smaller keys. There are no exceptions.
#[unsafe(no_mangle)]
pub extern "C" fn themis_arrive_proposed(
    alloc: Global,
    handle: &mut Handle,
    into: &mut [CTx],
    count: &mut usize,
) -> u32
    ensures arrived { result ≡ OK → (old : Seat) → handle.old.seat ≡ Some old
        → IsSomeAnd handle.new.seat (λ new. HasCopiedProposed old new into.old into.new count.new × (new ≡ record old { desk = new.desk })) }
    ensures short { handle.old.seat ≢ None → (result ≡ SHORT) ↔ (length into.old < 480) }
    ensures refused { result ≢ OK → handle.new.seat ≡ handle.old.seat }
    ensures kept { result ≢ OK → into.new ≡ into.old }
    ensures uncounted { result ≢ OK → count.new ≡ count.old }
    ensures status { handle.old.seat ≢ None → result ≢ SHORT → IsOkOrNoMemory result }
    ensures vacant { (result ≡ VACANT) ↔ (handle.old.seat ≡ None) }
{
    let Some(mut replica) = handle.take(alloc) else {
        return VACANT;
    };
    let status = arrive_proposed(&mut replica, into, count);
    handle.put(replica);
    status
}

fn arrive_proposed(replica: &mut Replica, into: &mut [CTx], count: &mut usize) -> u32
    ensures arrived { result ≡ OK → HasCopiedProposed replica.old replica.new into.old into.new count.new }
    ensures rest { replica.new ≡ record replica.old { desk = replica.new.desk } }
    ensures short { (result ≡ SHORT) ↔ (length into.old < 480) }
    ensures refused { result ≢ OK → replica.new ≡ replica.old }
    ensures kept { result ≢ OK → into.new ≡ into.old }
    ensures uncounted { result ≢ OK → count.new ≡ count.old }
    ensures status { result ≢ SHORT → IsOkOrNoMemory result }
{
    if into.len() < MAX_ARRIVALS {
        return SHORT;
    }
    match replica.arrive_proposed() {
        Err(_) => NO_MEMORY,
        Ok(arrivals) => {
            *count = arrivals.txs.len() + arrivals.given.len();
            put_arrivals(&arrivals, into);
            OK
        }
    }
}

fn put_arrivals(arrivals: &Arrivals, into: &mut [CTx])
    requires { length arrivals.now.txs.items + length arrivals.now.given.items ≤ length into.old }
    ensures { into.new ≡ map c_tx (arrivals.now.txs.items ++ arrivals.now.given.items)
        ++ drop (length arrivals.now.txs.items + length arrivals.now.given.items) into.old }
{
    let size = arrivals.txs.len();
    put_txs(arrivals.txs.as_slice(), into);
    put_from(arrivals.given.as_slice(), size, into);
}

/// Copies transactions into a buffer, from a position on.
fn put_from(txs: &[Tx], start: usize, into: &mut [CTx])
    requires { start + length txs.now ≤ length into.old }
    ensures { into.new ≡ take start into.old ++ map c_tx txs.now ++ drop (start + length txs.now) into.old }
{
    for at in 0..txs.len() {
        into[start + at] = c_tx(&txs[at]);
    }
}
