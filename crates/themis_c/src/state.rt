//! Where the replica stands: its views, its final batches, the transactions that it knows, and its stored blocks.
ghost use Rattle.std.specs.Prelude.{◌≡◌, ◌≢◌, ◌≤◌, ◌++◌, ◌↔◌, Some, None, if◌then◌else◌, drop, length, map, option_map, slice_get};
ghost use Rattle.std.specs.Option.{IsSomeAnd};
ghost use Rattle.chain_state.specs.Standings.{at_most_usize};
ghost use Rattle.hotstuff_core.specs.Rules.{view_at};
ghost use Rattle.node_core.specs.Above.{blocks_above, give_at};
ghost use Rattle.node_core.specs.State.{kept_of};
ghost use Rattle.replica_box.specs.Seats.{Seat, finals_at, proposes};
ghost use Rattle.themis_c.specs.Answers.{IsHeldStatus, IsOkOrNoMemory};
ghost use Rattle.themis_c.specs.Calls.{IsGiven, c_tx, tx_of};

use crate::outcome::copy_out;
use crate::preparing::own_tx;
use crate::{CTx, Handle, NO_MEMORY, NONE, OK, SHORT, VACANT};
use replica_box::Replica;
use seq_base::Tx;
use std::alloc::Global;

/// The replica's view, and the view of its committed block.
#[unsafe(no_mangle)]
pub extern "C" fn themis_views(
    alloc: Global,
    handle: &mut Handle,
    view: &mut u32,
    commit: &mut u32,
) -> u32
    ensures view { result ≡ OK → IsSomeAnd handle.old.seat (λ seat. view.new ≡ seat.node.state.known.view) }
    ensures commit { result ≡ OK → IsSomeAnd handle.old.seat (λ seat. commit.new ≡ view_at seat.node.state.known.store seat.node.state.known.safety.committed) }
    ensures same { handle.new.seat ≡ handle.old.seat }
    ensures status { IsHeldStatus result handle.old.seat }
{
    let Some(replica) = handle.take(alloc) else {
        return VACANT;
    };
    *view = replica.view();
    *commit = replica.commit_view();
    handle.put(replica);
    OK
}

/// How many batches are final.
#[unsafe(no_mangle)]
pub extern "C" fn themis_batches(alloc: Global, handle: &mut Handle, count: &mut usize) -> u32
    ensures count { result ≡ OK → IsSomeAnd handle.old.seat (λ seat. count.new ≡ at_most_usize (length (finals_at seat.node.state.known))) }
    ensures uncounted { result ≢ OK → count.new ≡ count.old }
    ensures status { handle.old.seat ≢ None → IsOkOrNoMemory result }
    ensures same { handle.new.seat ≡ handle.old.seat }
    ensures vacant { (result ≡ VACANT) ↔ (handle.old.seat ≡ None) }
{
    let Some(replica) = handle.take(alloc) else {
        return VACANT;
    };
    let status = count_batches(&replica, count);
    handle.put(replica);
    status
}

fn count_batches(replica: &Replica, count: &mut usize) -> u32
    ensures count { result ≡ OK → count.new ≡ at_most_usize (length (finals_at replica.now.node.state.known)) }
    ensures uncounted { result ≢ OK → count.new ≡ count.old }
    ensures status { IsOkOrNoMemory result }
{
    match replica.batch_count() {
        Err(_) => NO_MEMORY,
        Ok(batches) => {
            *count = batches;
            OK
        }
    }
}

/// Copies the transactions of the final batch at a position into a buffer, and writes how many they are.
#[unsafe(no_mangle)]
pub extern "C" fn themis_batch(
    alloc: Global,
    handle: &mut Handle,
    at: usize,
    into: &mut [CTx],
    count: &mut usize,
) -> u32
    ensures given { result ≢ NO_MEMORY → (seat : Seat) → handle.old.seat ≡ Some seat
        → IsGiven (option_map (map c_tx) (slice_get (finals_at seat.node.state.known) at)) result into.old into.new count.new }
    ensures same { handle.new.seat ≡ handle.old.seat }
    ensures kept { result ≢ OK → into.new ≡ into.old }
    ensures uncounted { result ≡ NO_MEMORY → count.new ≡ count.old }
    ensures vacant { (result ≡ VACANT) ↔ (handle.old.seat ≡ None) }
{
    let Some(replica) = handle.take(alloc) else {
        return VACANT;
    };
    let status = copy_batch(&replica, at, into, count);
    handle.put(replica);
    status
}

fn copy_batch(replica: &Replica, at: usize, into: &mut [CTx], count: &mut usize) -> u32
    ensures given { result ≢ NO_MEMORY
        → IsGiven (option_map (map c_tx) (slice_get (finals_at replica.now.node.state.known) at)) result into.old into.new count.new }
    ensures kept { result ≢ OK → into.new ≡ into.old }
    ensures uncounted { result ≡ NO_MEMORY → count.new ≡ count.old }
    ensures held { result ≢ VACANT }
{
    match replica.batch(at) {
        Err(_) => NO_MEMORY,
        Ok(None) => NONE,
        Ok(Some(batch)) => copy_txs(batch.as_slice(), into, count),
    }
}

/// Copies transactions to the start of a buffer, where they fit, and writes how many they are.
pub(crate) fn copy_txs(txs: &[Tx], into: &mut [CTx], count: &mut usize) -> u32
    ensures given { IsGiven (Some (map c_tx txs.now)) result into.old into.new count.new }
    ensures held { (result ≢ VACANT) × (result ≢ NONE) × (result ≢ NO_MEMORY) }
{
    *count = txs.len();
    if into.len() < txs.len() {
        return SHORT;
    }
    put_txs(txs, into);
    OK
}

pub(crate) fn put_txs(txs: &[Tx], into: &mut [CTx])
    requires { length txs.now ≤ length into.old }
    ensures { into.new ≡ map c_tx txs.now ++ drop (length txs.now) into.old }
{
    for at in 0..txs.len() {
        into[at] = c_tx(&txs[at]);
    }
}

pub(crate) fn c_tx(tx: &Tx) -> CTx
    ensures { result ≡ c_tx tx.now }
{
    CTx {
        client: tx.client,
        number: tx.number,
        payload: tx.payload,
    }
}

/// How many transactions arrived at the replica.
#[unsafe(no_mangle)]
pub extern "C" fn themis_known(alloc: Global, handle: &mut Handle, known: &mut u32) -> u32
    ensures known { result ≡ OK → IsSomeAnd handle.old.seat (λ seat. known.new ≡ kept_of seat.node.state.known) }
    ensures same { handle.new.seat ≡ handle.old.seat }
    ensures status { IsHeldStatus result handle.old.seat }
{
    let Some(replica) = handle.take(alloc) else {
        return VACANT;
    };
    *known = replica.known();
    handle.put(replica);
    OK
}

/// Whether a transaction is proposed in the chain that ends in the block of the highest certificate: 1 or 0.
#[unsafe(no_mangle)]
pub extern "C" fn themis_is_proposed(
    alloc: Global,
    handle: &mut Handle,
    tx: &CTx,
    yes: &mut u32,
) -> u32
    ensures proposed { result ≡ OK → IsSomeAnd handle.old.seat (λ seat. yes.new ≡ (if proposes seat.node.state.known (tx_of tx.now) then 1 else 0)) }
    ensures status { handle.old.seat ≢ None → IsOkOrNoMemory result }
    ensures same { handle.new.seat ≡ handle.old.seat }
    ensures vacant { (result ≡ VACANT) ↔ (handle.old.seat ≡ None) }
{
    let Some(replica) = handle.take(alloc) else {
        return VACANT;
    };
    let status = look_up(&replica, tx, yes);
    handle.put(replica);
    status
}

fn look_up(replica: &Replica, tx: &CTx, yes: &mut u32) -> u32
    ensures proposed { result ≡ OK → yes.new ≡ (if proposes replica.now.node.state.known (tx_of tx.now) then 1 else 0) }
    ensures status { IsOkOrNoMemory result }
{
    match replica.is_proposed(&own_tx(tx)) {
        Err(_) => NO_MEMORY,
        Ok(proposed) => {
            *yes = if proposed { 1 } else { 0 };
            OK
        }
    }
}

/// How many stored blocks have a view above this one.
#[unsafe(no_mangle)]
pub extern "C" fn themis_gives(
    alloc: Global,
    handle: &mut Handle,
    above: u32,
    count: &mut usize,
) -> u32
    ensures count { result ≡ OK → IsSomeAnd handle.old.seat (λ seat. count.new ≡ length (blocks_above seat.node.state.known above)) }
    ensures same { handle.new.seat ≡ handle.old.seat }
    ensures status { IsHeldStatus result handle.old.seat }
{
    let Some(replica) = handle.take(alloc) else {
        return VACANT;
    };
    *count = replica.give_count(above);
    handle.put(replica);
    OK
}

/// Copies the Give message of one of these blocks, in the order in which they were stored, into a buffer, and writes its
/// size. A replica that fell behind is sent these messages.
#[unsafe(no_mangle)]
pub extern "C" fn themis_give(
    alloc: Global,
    handle: &mut Handle,
    above: u32,
    at: usize,
    into: &mut [u8],
    size: &mut usize,
) -> u32
    ensures given { result ≢ NO_MEMORY → (seat : Seat) → handle.old.seat ≡ Some seat
        → IsGiven (give_at seat.node.state.known above at) result into.old into.new size.new }
    ensures refused { result ≡ NO_MEMORY → (seat : Seat) → handle.old.seat ≡ Some seat → give_at seat.node.state.known above at ≢ None }
    ensures same { handle.new.seat ≡ handle.old.seat }
    ensures kept { result ≢ OK → into.new ≡ into.old }
    ensures uncounted { result ≡ NO_MEMORY → size.new ≡ size.old }
    ensures vacant { (result ≡ VACANT) ↔ (handle.old.seat ≡ None) }
{
    let Some(replica) = handle.take(alloc) else {
        return VACANT;
    };
    let status = copy_give(&replica, above, at, into, size);
    handle.put(replica);
    status
}

fn copy_give(replica: &Replica, above: u32, at: usize, into: &mut [u8], size: &mut usize) -> u32
    ensures given { result ≢ NO_MEMORY → IsGiven (give_at replica.now.node.state.known above at) result into.old into.new size.new }
    ensures refused { result ≡ NO_MEMORY → give_at replica.now.node.state.known above at ≢ None }
    ensures kept { result ≢ OK → into.new ≡ into.old }
    ensures uncounted { result ≡ NO_MEMORY → size.new ≡ size.old }
    ensures held { result ≢ VACANT }
{
    match replica.give(above, at) {
        Err(_) => NO_MEMORY,
        Ok(None) => NONE,
        Ok(Some(message)) => copy_out(message.as_slice(), into, size),
    }
}
