//! What the last turn gave.
ghost use Rattle.std.specs.Prelude.{◌≡◌, ◌≢◌, ◌↔◌, Some, None, length, map, option_map, slice_get};
ghost use Rattle.std.specs.Option.{IsSomeAnd};
ghost use Rattle.replica_box.specs.Seats.{Seat};
ghost use Rattle.themis_c.specs.Answers.{IsHeldStatus};
ghost use Rattle.themis_c.specs.Calls.{IsGiven};

use crate::{Handle, NONE, OK, SHORT, VACANT};
use replica_box::Replica;
use std::alloc::Global;

/// How many messages the last turn sends.
#[unsafe(no_mangle)]
pub extern "C" fn themis_sends(alloc: Global, handle: &mut Handle, count: &mut usize) -> u32
    ensures count { result ≡ OK → IsSomeAnd handle.old.seat (λ seat. count.new ≡ length seat.sends) }
    ensures same { handle.new.seat ≡ handle.old.seat }
    ensures status { IsHeldStatus result handle.old.seat }
{
    let Some(replica) = handle.take(alloc) else {
        return VACANT;
    };
    *count = replica.sends().len();
    handle.put(replica);
    OK
}

/// Copies one of these messages into a buffer, and writes its receiver and its size.
#[unsafe(no_mangle)]
pub extern "C" fn themis_send(
    alloc: Global,
    handle: &mut Handle,
    at: usize,
    to: &mut u32,
    into: &mut [u8],
    size: &mut usize,
) -> u32
    ensures given { (seat : Seat) → handle.old.seat ≡ Some seat
        → IsGiven (option_map (λ out. out.bytes) (slice_get seat.sends at)) result into.old into.new size.new }
    ensures to { result ≡ OK → IsSomeAnd handle.old.seat (λ seat. slice_get (map (λ out. out.to) seat.sends) at ≡ Some to.new) }
    ensures same { handle.new.seat ≡ handle.old.seat }
    ensures kept { result ≢ OK → into.new ≡ into.old }
    ensures vacant { (result ≡ VACANT) ↔ (handle.old.seat ≡ None) }
{
    let Some(replica) = handle.take(alloc) else {
        return VACANT;
    };
    let status = copy_send(&replica, at, to, into, size);
    handle.put(replica);
    status
}

fn copy_send(replica: &Replica, at: usize, to: &mut u32, into: &mut [u8], size: &mut usize) -> u32
    ensures given { IsGiven (option_map (λ out. out.bytes) (slice_get replica.now.sends at)) result into.old into.new size.new }
    ensures to { result ≡ OK → slice_get (map (λ out. out.to) replica.now.sends) at ≡ Some to.new }
    ensures held { result ≢ VACANT }
{
    match replica.sends().get(at) {
        None => NONE,
        Some(out) => {
            *to = out.to;
            copy_out(out.bytes.as_slice(), into, size)
        }
    }
}

/// How many statements the last turn sealed.
#[unsafe(no_mangle)]
pub extern "C" fn themis_sealed(alloc: Global, handle: &mut Handle, count: &mut usize) -> u32
    ensures count { result ≡ OK → IsSomeAnd handle.old.seat (λ seat. count.new ≡ length seat.sealed) }
    ensures same { handle.new.seat ≡ handle.old.seat }
    ensures status { IsHeldStatus result handle.old.seat }
{
    let Some(replica) = handle.take(alloc) else {
        return VACANT;
    };
    *count = replica.sealed().len();
    handle.put(replica);
    OK
}

/// Copies one of these statements into a buffer, and writes its size.
#[unsafe(no_mangle)]
pub extern "C" fn themis_statement(
    alloc: Global,
    handle: &mut Handle,
    at: usize,
    into: &mut [u8],
    size: &mut usize,
) -> u32
    ensures given { (seat : Seat) → handle.old.seat ≡ Some seat → IsGiven (slice_get seat.sealed at) result into.old into.new size.new }
    ensures same { handle.new.seat ≡ handle.old.seat }
    ensures kept { result ≢ OK → into.new ≡ into.old }
    ensures vacant { (result ≡ VACANT) ↔ (handle.old.seat ≡ None) }
{
    let Some(replica) = handle.take(alloc) else {
        return VACANT;
    };
    let status = copy_statement(&replica, at, into, size);
    handle.put(replica);
    status
}

fn copy_statement(replica: &Replica, at: usize, into: &mut [u8], size: &mut usize) -> u32
    ensures given { IsGiven (slice_get replica.now.sealed at) result into.old into.new size.new }
    ensures held { result ≢ VACANT }
{
    match replica.sealed().get(at) {
        None => NONE,
        Some(statement) => copy_out(statement.as_slice(), into, size),
    }
}

/// Copies bytes to the start of a buffer, where they fit, and writes how many they are.
pub(crate) fn copy_out(bytes: &[u8], into: &mut [u8], size: &mut usize) -> u32
    ensures given { IsGiven (Some bytes.now) result into.old into.new size.new }
    ensures held { (result ≢ VACANT) × (result ≢ NONE) }
{
    *size = bytes.len();
    if into.len() < bytes.len() {
        return SHORT;
    }
    into[..bytes.len()].copy_from_slice(bytes);
    OK
}
