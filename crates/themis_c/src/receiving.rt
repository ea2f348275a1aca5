//! What a replica receives: from its own clients, from its peers, from blocks, and from its log.
ghost use Rattle.std.specs.Prelude.{◌≡◌, ◌≢◌, ◌↔◌, ◌<◌, if◌then◌else◌, Some, None, false, IfOk, OnOk, OnErr, map};
ghost use Rattle.std.specs.Option.{IsSomeAnd};
ghost use Rattle.intake.specs.Naming.{HasNamedAll, HasNamedOf};
ghost use Rattle.intake.specs.Offered.{HasNamed};
ghost use Rattle.intake.specs.Receiving.{clock_heard, hear_answer, heard, restore_answer, restored, settled};
ghost use Rattle.replica_box.specs.Seats.{Seat};
ghost use Rattle.replica_box.specs.Shown.{shown_lists, shows_block};
ghost use Rattle.themis_c.specs.Answers.{IsOkOrNoMemory};
ghost use Rattle.themis_c.specs.Calls.{tx_of};
ghost use Rattle.themis_c.specs.Receipts.{IsPeerStatus, receipt_of, submit_answer, submitted, taken_code};

use crate::preparing::{list_of, own_tx};
use crate::{BAD_NUMBER, CReceipt, CTx, Handle, NO_MEMORY, NONE, OK, VACANT};
use intake::{Receipt, Taken};
use replica_box::Replica;
use seq_base::NoMemory;
use std::alloc::Global;

/// A transaction of an own client. `taken` is the answer to it.
#[unsafe(no_mangle)]
pub extern "C" fn themis_submit(
    alloc: Global,
    handle: &mut Handle,
    tx: &CTx,
    taken: &mut u32,
) -> u32
    ensures taken { result ≡ OK → IsSomeAnd handle.old.seat (λ old. taken.new ≡ submit_answer (tx_of tx.now) old) }
    ensures received { result ≡ OK → (old : Seat) → handle.old.seat ≡ Some old → IsSomeAnd handle.new.seat (λ new. new ≡ submitted (tx_of tx.now) old) }
    ensures status { handle.old.seat ≢ None → IsOkOrNoMemory result }
    ensures refused { result ≢ OK → handle.new.seat ≡ handle.old.seat }
    ensures vacant { (result ≡ VACANT) ↔ (handle.old.seat ≡ None) }
{
    let Some(mut replica) = handle.take(alloc) else {
        return VACANT;
    };
    let status = submit(&mut replica, tx, taken);
    handle.put(replica);
    status
}

#[tactic(auto, unfolding(crate::specs::Receipts::submit_answer, crate::specs::Receipts::submitted))]
fn submit(replica: &mut Replica, tx: &CTx, taken: &mut u32) -> u32
    ensures taken { result ≡ OK → taken.new ≡ submit_answer (tx_of tx.now) replica.old }
    ensures received { result ≡ OK → replica.new ≡ submitted (tx_of tx.now) replica.old }
    ensures status { IsOkOrNoMemory result }
    ensures refused { result ≢ OK → replica.new ≡ replica.old }
{
    match replica.submit(own_tx(tx)) {
        Err(_) => NO_MEMORY,
        Ok(answer) => {
            *taken = taken_code(answer);
            OK
        }
    }
}

/// A receipt that a peer reports. `taken` is the answer to its transaction.
#[unsafe(no_mangle)]
pub extern "C" fn themis_hear(
    alloc: Global,
    handle: &mut Handle,
    peer: u32,
    receipt: &CReceipt,
    taken: &mut u32,
) -> u32
    ensures taken { result ≡ OK → IsSomeAnd handle.old.seat (λ old. taken.new ≡ taken_code (hear_answer peer (receipt_of receipt.now) old.desk)) }
    ensures heard { result ≡ OK → (old : Seat) → handle.old.seat ≡ Some old
        → IsSomeAnd handle.new.seat (λ new. new ≡ record old { desk = heard peer (receipt_of receipt.now) old.desk }) }
    ensures status { (old : Seat) → handle.old.seat ≡ Some old → IsPeerStatus result peer old }
    ensures refused { result ≢ OK → handle.new.seat ≡ handle.old.seat }
    ensures vacant { (result ≡ VACANT) ↔ (handle.old.seat ≡ None) }
{
    let Some(mut replica) = handle.take(alloc) else {
        return VACANT;
    };
    let status = hear(&mut replica, peer, receipt, taken);
    handle.put(replica);
    status
}

fn hear(replica: &mut Replica, peer: u32, receipt: &CReceipt, taken: &mut u32) -> u32
    ensures taken { result ≡ OK → taken.new ≡ taken_code (hear_answer peer (receipt_of receipt.now) replica.old.desk) }
    ensures heard { result ≡ OK → replica.new ≡ record replica.old { desk = heard peer (receipt_of receipt.now) replica.old.desk } }
    ensures status { IsPeerStatus result peer replica.old }
    ensures refused { result ≢ OK → replica.new ≡ replica.old }
    ensures held { result ≢ VACANT }
{
    if replica.desk().n() <= peer {
        return BAD_NUMBER;
    }
    match replica.hear(peer, own_receipt(receipt)) {
        Err(_) => NO_MEMORY,
        Ok(answer) => {
            *taken = taken_code(answer);
            OK
        }
    }
}

/// The clock that a peer reports.
#[unsafe(no_mangle)]
pub extern "C" fn themis_hear_clock(
    alloc: Global,
    handle: &mut Handle,
    peer: u32,
    clock: u64,
) -> u32
    ensures heard { result ≡ OK → (old : Seat) → handle.old.seat ≡ Some old
        → IsSomeAnd handle.new.seat (λ new. new ≡ record old { desk = clock_heard peer clock old.desk }) }
    ensures peer { (old : Seat) → handle.old.seat ≡ Some old → (result ≡ OK) ↔ (peer < old.desk.n) }
    ensures status { handle.old.seat ≢ None → result ≢ OK → result ≡ BAD_NUMBER }
    ensures refused { result ≢ OK → handle.new.seat ≡ handle.old.seat }
    ensures vacant { (result ≡ VACANT) ↔ (handle.old.seat ≡ None) }
{
    let Some(mut replica) = handle.take(alloc) else {
        return VACANT;
    };
    let status = hear_clock(&mut replica, peer, clock);
    handle.put(replica);
    status
}

fn hear_clock(replica: &mut Replica, peer: u32, clock: u64) -> u32
    ensures heard { result ≡ OK → replica.new ≡ record replica.old { desk = clock_heard peer clock replica.old.desk } }
    ensures peer { (result ≡ OK) ↔ (peer < replica.old.desk.n) }
    ensures status { result ≢ OK → result ≡ BAD_NUMBER }
    ensures refused { result ≢ OK → replica.new ≡ replica.old }
{
    if replica.desk().n() <= peer {
        return BAD_NUMBER;
    }
    replica.hear_clock(peer, clock);
    OK
}

/// A transaction that arrived before the replica was opened. `taken` is the answer to it.
#[unsafe(no_mangle)]
pub extern "C" fn themis_restore(
    alloc: Global,
    handle: &mut Handle,
    tx: &CTx,
    taken: &mut u32,
) -> u32
    ensures taken { result ≡ OK → IsSomeAnd handle.old.seat (λ old. taken.new ≡ taken_code (restore_answer (tx_of tx.now) old.desk)) }
    ensures restored { result ≡ OK → (old : Seat) → handle.old.seat ≡ Some old
        → IsSomeAnd handle.new.seat (λ new. new ≡ record old { desk = restored (tx_of tx.now) old.desk }) }
    ensures status { handle.old.seat ≢ None → IsOkOrNoMemory result }
    ensures refused { result ≢ OK → handle.new.seat ≡ handle.old.seat }
    ensures vacant { (result ≡ VACANT) ↔ (handle.old.seat ≡ None) }
{
    let Some(mut replica) = handle.take(alloc) else {
        return VACANT;
    };
    let status = restore(&mut replica, tx, taken);
    handle.put(replica);
    status
}

fn restore(replica: &mut Replica, tx: &CTx, taken: &mut u32) -> u32
    ensures taken { result ≡ OK → taken.new ≡ taken_code (restore_answer (tx_of tx.now) replica.old.desk) }
    ensures restored { result ≡ OK → replica.new ≡ record replica.old { desk = restored (tx_of tx.now) replica.old.desk } }
    ensures status { IsOkOrNoMemory result }
    ensures refused { result ≢ OK → replica.new ≡ replica.old }
{
    match replica.restore(own_tx(tx)) {
        Err(_) => NO_MEMORY,
        Ok(answer) => {
            *taken = taken_code(answer);
            OK
        }
    }
}

/// Transactions that are final. They are no longer held, and are not received again.
#[unsafe(no_mangle)]
pub extern "C" fn themis_settle(alloc: Global, handle: &mut Handle, txs: &[CTx]) -> u32
    ensures settled { result ≡ OK → (old : Seat) → handle.old.seat ≡ Some old
        → IsSomeAnd handle.new.seat (λ new. new ≡ record old { desk = settled (map tx_of txs.now) old.desk }) }
    ensures status { handle.old.seat ≢ None → IsOkOrNoMemory result }
    ensures refused { result ≢ OK → handle.new.seat ≡ handle.old.seat }
    ensures vacant { (result ≡ VACANT) ↔ (handle.old.seat ≡ None) }
{
    let Some(mut replica) = handle.take(alloc) else {
        return VACANT;
    };
    let status = settle(alloc, &mut replica, txs);
    handle.put(replica);
    status
}

fn settle(alloc: Global, replica: &mut Replica, txs: &[CTx]) -> u32
    ensures settled { result ≡ OK → replica.new ≡ record replica.old { desk = settled (map tx_of txs.now) replica.old.desk } }
    ensures status { IsOkOrNoMemory result }
    ensures refused { result ≢ OK → replica.new ≡ replica.old }
{
    match settle_all(alloc, replica, txs) {
        Err(_) => NO_MEMORY,
        Ok(()) => OK,
    }
}

fn settle_all(alloc: Global, replica: &mut Replica, txs: &[CTx]) -> Result<(), NoMemory>
    ensures ok { OnOk result (replica.new ≡ record replica.old { desk = settled (map tx_of txs.now) replica.old.desk }) }
    ensures err { OnErr result (replica.new ≡ replica.old) }
{
    let list = list_of(alloc, txs)?;
    replica.settle(list.as_slice())
}

/// The message of a block that a turn stored: a Propose or a Give.
#[unsafe(no_mangle)]
pub extern "C" fn themis_accepted(alloc: Global, handle: &mut Handle, bytes: &[u8]) -> u32
    ensures named { (old : Seat) → handle.old.seat ≡ Some old
        → IsSomeAnd handle.new.seat (λ new. HasNamed old.desk new.desk × (new ≡ record old { desk = new.desk })) }
    ensures only { (old : Seat) → handle.old.seat ≡ Some old
        → IsSomeAnd handle.new.seat (λ new. HasNamedOf old.desk.f (shown_lists bytes.now) old.desk new.desk) }
    ensures all { result ≢ NO_MEMORY → (old : Seat) → handle.old.seat ≡ Some old
        → IsSomeAnd handle.new.seat (λ new. HasNamedAll old.desk.f (shown_lists bytes.now) old.desk new.desk) }
    ensures found { handle.old.seat ≢ None → result ≢ NO_MEMORY → result ≡ (if shows_block bytes.now then OK else NONE) }
    ensures none { handle.old.seat ≢ None → shows_block bytes.now ≡ false → (result ≡ NONE) × (handle.new.seat ≡ handle.old.seat) }
    ensures vacant { (result ≡ VACANT) ↔ (handle.old.seat ≡ None) }
{
    let Some(mut replica) = handle.take(alloc) else {
        return VACANT;
    };
    let status = accept(&mut replica, bytes);
    handle.put(replica);
    status
}

fn accept(replica: &mut Replica, bytes: &[u8]) -> u32
    ensures named { HasNamed replica.old.desk replica.new.desk × (replica.new ≡ record replica.old { desk = replica.new.desk }) }
    ensures only { HasNamedOf replica.old.desk.f (shown_lists bytes.now) replica.old.desk replica.new.desk }
    ensures all { result ≢ NO_MEMORY → HasNamedAll replica.old.desk.f (shown_lists bytes.now) replica.old.desk replica.new.desk }
    ensures found { result ≢ NO_MEMORY → result ≡ (if shows_block bytes.now then OK else NONE) }
    ensures none { shows_block bytes.now ≡ false → (result ≡ NONE) × (replica.new ≡ replica.old) }
    ensures held { result ≢ VACANT }
{
    match replica.accepted(bytes) {
        Err(_) => NO_MEMORY,
        Ok(true) => OK,
        Ok(false) => NONE,
    }
}

fn own_receipt(receipt: &CReceipt) -> Receipt
    ensures { result ≡ receipt_of receipt.now }
{
    Receipt {
        tx: own_tx(&receipt.tx),
        stamp: receipt.stamp,
    }
}

fn taken_code(taken: Taken) -> u32
    ensures { result ≡ taken_code taken }
{
    match taken {
        Taken::New => 0,
        Taken::Held => 1,
        Taken::Final => 2,
        Taken::Full => 3,
        Taken::Beyond => 4,
    }
}
