//! Preparing events, and their records.
ghost use Rattle.std.specs.Prelude.{◌≡◌, ◌≢◌, ◌++◌, ◌∷◌, ◌↔◌, [], Some, None, false, IsTrue, IfOk, OnOk, map, option_map, slice_get};
ghost use Rattle.std.specs.Option.{IsSomeAnd};
ghost use Rattle.node_core.specs.declared.event.Event.{Event};
ghost use Rattle.node_core.specs.declared.event.Event.TheVariants.{Arrived, Deliver, Tick};
ghost use Rattle.durable_node.specs.Log.{IsShort};
ghost use Rattle.replica_box.specs.Hosting.{record_for};
ghost use Rattle.replica_box.specs.Seats.{HasPrepared, Seat};
ghost use Rattle.themis_c.specs.Answers.{IsOkOrNoMemory, IsPrepareStatus};
ghost use Rattle.themis_c.specs.Calls.{IsGiven, tx_of};

use crate::outcome::copy_out;
use crate::{CTx, HALTED, Handle, LONG, NO_MEMORY, NONE, OK, VACANT};
use node_core::Event;
use replica_box::{PrepareFault, Replica};
use seq_base::{Bytes, NoMemory, Packet, Tx, TxList};
use std::alloc::Global;

/// Prepares the event that these transactions arrived, in this order.
#[unsafe(no_mangle)]
pub extern "C" fn themis_prepare_arrived(alloc: Global, handle: &mut Handle, txs: &[CTx]) -> u32
    ensures prepared { result ≡ OK → (old : Seat) → handle.old.seat ≡ Some old → IsSomeAnd handle.new.seat (HasPrepared (Arrived (map tx_of txs.now)) old) }
    ensures status { (old : Seat) → handle.old.seat ≡ Some old → IsPrepareStatus result (Arrived (map tx_of txs.now)) old }
    ensures refused { result ≢ OK → handle.new.seat ≡ handle.old.seat }
    ensures vacant { (result ≡ VACANT) ↔ (handle.old.seat ≡ None) }
{
    let Some(mut replica) = handle.take(alloc) else {
        return VACANT;
    };
    let status = prepare_arrived(alloc, &mut replica, txs);
    handle.put(replica);
    status
}

/// What can be refused without memory is refused first.
fn prepare_arrived(alloc: Global, replica: &mut Replica, txs: &[CTx]) -> u32
    ensures prepared { result ≡ OK → HasPrepared (Arrived (map tx_of txs.now)) replica.old replica.new }
    ensures status { IsPrepareStatus result (Arrived (map tx_of txs.now)) replica.old }
    ensures refused { result ≢ OK → replica.new ≡ replica.old }
    ensures held { result ≢ VACANT }
{
    if !is_short_list(txs) {
        return LONG;
    }
    if replica.is_halted() {
        return HALTED;
    }
    match arrived(alloc, txs) {
        Err(_) => NO_MEMORY,
        Ok(event) => prepare(replica, event),
    }
}

/// Prepares the event that replica `from` sent these bytes.
#[unsafe(no_mangle)]
pub extern "C" fn themis_prepare_deliver(
    alloc: Global,
    handle: &mut Handle,
    from: u32,
    bytes: &[u8],
) -> u32
    ensures prepared { result ≡ OK → (old : Seat) → handle.old.seat ≡ Some old → IsSomeAnd handle.new.seat (HasPrepared (Deliver from bytes.now) old) }
    ensures status { (old : Seat) → handle.old.seat ≡ Some old → IsPrepareStatus result (Deliver from bytes.now) old }
    ensures refused { result ≢ OK → handle.new.seat ≡ handle.old.seat }
    ensures vacant { (result ≡ VACANT) ↔ (handle.old.seat ≡ None) }
{
    let Some(mut replica) = handle.take(alloc) else {
        return VACANT;
    };
    let status = prepare_delivered(alloc, &mut replica, from, bytes);
    handle.put(replica);
    status
}

fn prepare_delivered(alloc: Global, replica: &mut Replica, from: u32, bytes: &[u8]) -> u32
    ensures prepared { result ≡ OK → HasPrepared (Deliver from bytes.now) replica.old replica.new }
    ensures status { IsPrepareStatus result (Deliver from bytes.now) replica.old }
    ensures refused { result ≢ OK → replica.new ≡ replica.old }
    ensures held { result ≢ VACANT }
{
    if !is_short_delivery(from, bytes) {
        return LONG;
    }
    if replica.is_halted() {
        return HALTED;
    }
    match delivered(alloc, from, bytes) {
        Err(_) => NO_MEMORY,
        Ok(event) => prepare(replica, event),
    }
}

/// Prepares the event that the pacemaker asks for a view above the replica's own and above `floor`.
#[unsafe(no_mangle)]
pub extern "C" fn themis_prepare_tick(alloc: Global, handle: &mut Handle, floor: u32) -> u32
    ensures prepared { result ≡ OK → (old : Seat) → handle.old.seat ≡ Some old → IsSomeAnd handle.new.seat (HasPrepared (Tick floor) old) }
    ensures status { (old : Seat) → handle.old.seat ≡ Some old → IsPrepareStatus result (Tick floor) old }
    ensures refused { result ≢ OK → handle.new.seat ≡ handle.old.seat }
    ensures vacant { (result ≡ VACANT) ↔ (handle.old.seat ≡ None) }
{
    let Some(mut replica) = handle.take(alloc) else {
        return VACANT;
    };
    let status = prepare_tick(&mut replica, floor);
    handle.put(replica);
    status
}

fn prepare_tick(replica: &mut Replica, floor: u32) -> u32
    ensures prepared { result ≡ OK → HasPrepared (Tick floor) replica.old replica.new }
    ensures status { IsPrepareStatus result (Tick floor) replica.old }
    ensures refused { result ≢ OK → replica.new ≡ replica.old }
    ensures held { result ≢ VACANT }
{
    if replica.is_halted() {
        return HALTED;
    }
    prepare(replica, Event::Tick { floor })
}

/// Takes an event that has room in a record as the last of those that are prepared. The replica runs.
fn prepare(replica: &mut Replica, event: Event) -> u32
    requires { IsShort event × (replica.old.node.halted ≡ false) }
    ensures prepared { result ≡ OK → HasPrepared event replica.old replica.new }
    ensures status { IsOkOrNoMemory result }
    ensures refused { result ≢ OK → replica.new ≡ replica.old }
{
    match replica.prepare(event) {
        Ok(()) => OK,
        Err(PrepareFault::Long) => LONG,
        Err(PrepareFault::Halted) => HALTED,
        Err(PrepareFault::NoMemory) => NO_MEMORY,
    }
}

/// Whether the event that transactions arrived has room in a record.
#[tactic(auto, using(crate::proofs::Sizes::arrived_size), unfolding(durable_node::specs::Log::body_of))]
fn is_short_list(txs: &[CTx]) -> bool
    ensures { IsTrue result ↔ IsShort (Arrived (map tx_of txs.now)) }
{
    txs.len() < 1 << 28
}

/// The same of the event that replica `from` sent bytes.
#[tactic(auto, unfolding(durable_node::specs::Log::body_of))]
pub(crate) fn is_short_delivery(from: u32, bytes: &[u8]) -> bool
    ensures { IsTrue result ↔ IsShort (Deliver from bytes.now) }
{
    from < 256 && bytes.len() < (1 << 32) - 2
}

pub(crate) fn delivered(alloc: Global, from: u32, bytes: &[u8]) -> Result<Event, NoMemory>
    ensures { IfOk result (λ event. event ≡ Deliver from bytes.now) }
{
    Ok(Event::Deliver {
        from,
        bytes: Packet::of(Bytes::of(bytes.to_vec(alloc)?))?,
    })
}

fn arrived(alloc: Global, txs: &[CTx]) -> Result<Event, NoMemory>
    ensures { IfOk result (λ event. event ≡ Arrived (map tx_of txs.now)) }
{
    Ok(Event::Arrived(TxList::of(list_of(alloc, txs)?)))
}

pub(crate) fn list_of(alloc: Global, txs: &[CTx]) -> Result<Vec<Tx>, NoMemory>
    ensures { IfOk result (λ list. list.items ≡ map tx_of txs.now) }
{
    let mut list = Vec::new(alloc);
    for tx in txs {
        put_tx(&mut list, tx)?;
    }
    Ok(list)
}

fn put_tx(list: &mut Vec<Tx>, tx: &CTx) -> Result<(), NoMemory>
    ensures { OnOk result (list.new.items ≡ list.old.items ++ tx_of tx.now ∷ []) }
{
    list.push(own_tx(tx))?;
    Ok(())
}

pub(crate) fn own_tx(tx: &CTx) -> Tx
    ensures { result ≡ tx_of tx.now }
{
    Tx {
        client: tx.client,
        number: tx.number,
        payload: tx.payload,
    }
}

/// Copies the record of a prepared event into a buffer, and writes its size. An event that would change nothing has no
/// record: its size is 0, and the host logs nothing for it. Event 0 is the one that the replica acts on next.
#[unsafe(no_mangle)]
pub extern "C" fn themis_record(
    alloc: Global,
    handle: &mut Handle,
    at: usize,
    into: &mut [u8],
    size: &mut usize,
) -> u32
    ensures given { (seat : Seat) → handle.old.seat ≡ Some seat → IsGiven (option_map record_for (slice_get seat.ready at)) result into.old into.new size.new }
    ensures same { handle.new.seat ≡ handle.old.seat }
    ensures kept { result ≢ OK → into.new ≡ into.old }
    ensures vacant { (result ≡ VACANT) ↔ (handle.old.seat ≡ None) }
{
    let Some(replica) = handle.take(alloc) else {
        return VACANT;
    };
    let status = copy_record(&replica, at, into, size);
    handle.put(replica);
    status
}

fn copy_record(replica: &Replica, at: usize, into: &mut [u8], size: &mut usize) -> u32
    ensures given { IsGiven (option_map record_for (slice_get replica.now.ready at)) result into.old into.new size.new }
    ensures held { result ≢ VACANT }
{
    match replica.record(at) {
        None => NONE,
        Some(record) => copy_out(record, into, size),
    }
}
