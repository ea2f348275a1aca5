//! What a replica received: its receipts for its peers, what is known of a transaction, its clock, and how much it holds.
ghost use Rattle.std.specs.Prelude.{◌≡◌, ◌≢◌, ◌↔◌, ◌≤◌, ◌++◌, None, drop, length, map};
ghost use Rattle.std.specs.Option.{IsSomeAnd};
ghost use Rattle.intake.specs.Desk.{charged, standing_of};
ghost use Rattle.intake.specs.Receiving.{receipts_after};
ghost use Rattle.themis_c.specs.Answers.{IsHeldStatus, IsOkOrNoMemory};
ghost use Rattle.themis_c.specs.Calls.{tx_of};
ghost use Rattle.themis_c.specs.Receipts.{c_receipt, held_count, standing_code, waiting_count};

use crate::preparing::own_tx;
use crate::state::c_tx;
use crate::{CReceipt, CTx, Handle, NO_MEMORY, OK, VACANT};
use intake::{Receipt, Standing};
use replica_box::Replica;
use std::alloc::Global;

/// Copies own receipts of held transactions with a stamp above `after` to the start of a buffer, in their order and as many
/// as fit, and writes how many they are.
#[unsafe(no_mangle)]
pub extern "C" fn themis_receipts(
    alloc: Global,
    handle: &mut Handle,
    after: u64,
    into: &mut [CReceipt],
    count: &mut usize,
) -> u32
    ensures copied { result ≡ OK → IsSomeAnd handle.old.seat
        (λ seat. into.new ≡ map c_receipt (receipts_after after (length into.old) seat.desk) ++ drop count.new into.old) }
    ensures count { result ≡ OK → IsSomeAnd handle.old.seat (λ seat. count.new ≡ length (receipts_after after (length into.old) seat.desk)) }
    ensures uncounted { result ≢ OK → count.new ≡ count.old }
    ensures same { handle.new.seat ≡ handle.old.seat }
    ensures kept { result ≢ OK → into.new ≡ into.old }
    ensures status { handle.old.seat ≢ None → IsOkOrNoMemory result }
    ensures vacant { (result ≡ VACANT) ↔ (handle.old.seat ≡ None) }
{
    let Some(replica) = handle.take(alloc) else {
        return VACANT;
    };
    let status = copy_receipts(&replica, after, into, count);
    handle.put(replica);
    status
}

fn copy_receipts(replica: &Replica, after: u64, into: &mut [CReceipt], count: &mut usize) -> u32
    ensures copied { result ≡ OK → into.new ≡ map c_receipt (receipts_after after (length into.old) replica.now.desk) ++ drop count.new into.old }
    ensures count { result ≡ OK → count.new ≡ length (receipts_after after (length into.old) replica.now.desk) }
    ensures uncounted { result ≢ OK → count.new ≡ count.old }
    ensures kept { result ≢ OK → into.new ≡ into.old }
    ensures status { IsOkOrNoMemory result }
{
    match replica.desk().receipts_after(after, into.len()) {
        Err(_) => NO_MEMORY,
        Ok(receipts) => {
            *count = receipts.len();
            put_receipts(receipts.as_slice(), into);
            OK
        }
    }
}

fn put_receipts(receipts: &[Receipt], into: &mut [CReceipt])
    requires { length receipts.now ≤ length into.old }
    ensures { into.new ≡ map c_receipt receipts.now ++ drop (length receipts.now) into.old }
{
    for at in 0..receipts.len() {
        into[at] = c_receipt(&receipts[at]);
    }
}

fn c_receipt(receipt: &Receipt) -> CReceipt
    ensures { result ≡ c_receipt receipt.now }
{
    CReceipt {
        tx: c_tx(&receipt.tx),
        stamp: receipt.stamp,
    }
}

/// What is known of a transaction.
#[unsafe(no_mangle)]
pub extern "C" fn themis_standing(
    alloc: Global,
    handle: &mut Handle,
    tx: &CTx,
    standing: &mut u32,
) -> u32
    ensures standing { result ≡ OK → IsSomeAnd handle.old.seat (λ seat. standing.new ≡ standing_code (standing_of (tx_of tx.now) seat.desk)) }
    ensures same { handle.new.seat ≡ handle.old.seat }
    ensures status { IsHeldStatus result handle.old.seat }
{
    let Some(replica) = handle.take(alloc) else {
        return VACANT;
    };
    *standing = standing_code(replica.desk().standing(&own_tx(tx)));
    handle.put(replica);
    OK
}

fn standing_code(standing: Standing) -> u32
    ensures { result ≡ standing_code standing }
{
    match standing {
        Standing::Unknown => 0,
        Standing::Waiting => 1,
        Standing::Arrived => 2,
        Standing::Final => 3,
    }
}

/// The replica's clock: the stamp of its last receipt.
#[unsafe(no_mangle)]
pub extern "C" fn themis_clock(alloc: Global, handle: &mut Handle, clock: &mut u64) -> u32
    ensures clock { result ≡ OK → IsSomeAnd handle.old.seat (λ seat. clock.new ≡ seat.desk.clock) }
    ensures same { handle.new.seat ≡ handle.old.seat }
    ensures status { IsHeldStatus result handle.old.seat }
{
    let Some(replica) = handle.take(alloc) else {
        return VACANT;
    };
    *clock = replica.desk().clock();
    handle.put(replica);
    OK
}

/// How many transactions the replica holds, received and not final, how many of them have not arrived, and how many came from
/// its own clients.
#[unsafe(no_mangle)]
pub extern "C" fn themis_held(
    alloc: Global,
    handle: &mut Handle,
    held: &mut usize,
    waiting: &mut usize,
    own: &mut u64,
) -> u32
    ensures held { result ≡ OK → IsSomeAnd handle.old.seat (λ seat. held.new ≡ held_count seat) }
    ensures waiting { result ≡ OK → IsSomeAnd handle.old.seat (λ seat. waiting.new ≡ waiting_count seat) }
    ensures own { result ≡ OK → IsSomeAnd handle.old.seat (λ seat. own.new ≡ charged seat.desk.me seat.desk) }
    ensures same { handle.new.seat ≡ handle.old.seat }
    ensures status { IsHeldStatus result handle.old.seat }
{
    let Some(replica) = handle.take(alloc) else {
        return VACANT;
    };
    *held = replica.desk().held_count();
    *waiting = replica.desk().waiting_count();
    *own = replica.desk().charged(replica.desk().me());
    handle.put(replica);
    OK
}
