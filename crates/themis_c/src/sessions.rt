//! The history of a chain of sessions, and the check of what arrived in the next one.
ghost use Rattle.std.specs.Prelude.{◌≡◌, ◌≢◌, ◌||◌, Some, None, map};
ghost use Rattle.seq_base.specs.declared.tx.Tx.{Tx};
ghost use Rattle.seq_base.specs.Lists.{holds};
ghost use Rattle.session_rules.specs.Cuts.{marker};
ghost use Rattle.session_rules.specs.Final.{is_known, left_of};
ghost use Rattle.themis_c.specs.Calls.{IsGiven, c_tx, tx_of};
ghost use Rattle.themis_c.specs.Histories.{IsAddStatus, IsCheckStatus, bit_of, final_in};

use crate::history::History;
use crate::preparing::list_of;
use crate::state::copy_txs;
use crate::{CTx, NO_MEMORY, OK};
use seq_base::Tx;
use session_rules::{AddFault, ArrivalFault, FinalTxs, marker};
use std::alloc::Global;

/// A transaction is final already.
pub const ALREADY_FINAL: u32 = 24;

/// A transaction is of client 0, and not the marker of the session.
pub const OTHER_MARKER: u32 = 25;

/// What is carried over does not arrive first, in its order.
pub const NOT_CARRIED: u32 = 26;

/// Adds a final batch of this session to the history. `ended` is then 1 if the batch holds the session's marker, and so is the last
/// that counts, and otherwise 0. With [`ALREADY_FINAL`], `at` is the position of the first of its transactions that is in the
/// history.
#[unsafe(no_mangle)]
pub extern "C" fn themis_history_add(
    alloc: Global,
    history: &mut History,
    session: u32,
    batch: &[CTx],
    ended: &mut u32,
    at: &mut usize,
) -> u32
    ensures added { result ≡ OK → (tx : Tx)
        → is_known (final_in history.new.keys) tx ≡ (is_known (final_in history.old.keys) tx || holds tx (map tx_of batch.now)) }
    ensures ended { result ≡ OK → ended.new ≡ bit_of (holds (marker session) (map tx_of batch.now)) }
    ensures status { IsAddStatus result (is_known (final_in history.old.keys)) (map tx_of batch.now) at.old at.new }
    ensures refused { result ≢ OK → (final_in history.new.keys ≡ final_in history.old.keys) × (ended.new ≡ ended.old) }
{
    let Ok(batch) = list_of(alloc, batch) else {
        return NO_MEMORY;
    };
    let Ok(mut txs) = history.take_or_new(alloc) else {
        return NO_MEMORY;
    };
    let status = add(&mut txs, session, &batch, ended, at);
    history.put(txs);
    status
}

fn add(txs: &mut FinalTxs, session: u32, batch: &[Tx], ended: &mut u32, at: &mut usize) -> u32
    ensures added { result ≡ OK → (tx : Tx) → is_known txs.new tx ≡ (is_known txs.old tx || holds tx batch.now) }
    ensures ended { result ≡ OK → ended.new ≡ bit_of (holds (marker session) batch.now) }
    ensures status { IsAddStatus result (is_known txs.old) batch.now at.old at.new }
    ensures refused { result ≢ OK → (txs.new ≡ txs.old) × (ended.new ≡ ended.old) }
{
    match txs.add(batch) {
        Ok(()) => {
            *ended = bit_of(batch.contains(&marker(session)));
            OK
        }
        Err(AddFault::AlreadyFinal { at: place }) => {
            *at = place;
            ALREADY_FINAL
        }
        Err(AddFault::NoMemory) => NO_MEMORY,
    }
}

fn bit_of(is: bool) -> u32
    ensures { result ≡ bit_of is }
{
    if is { 1 } else { 0 }
}

/// Checks what arrived at a replica in this session, after the history. `before` is what arrived at it in the session before, or
/// empty where it was not in that session. With [`ALREADY_FINAL`] and [`OTHER_MARKER`], `at` is the position of the first such
/// transaction that arrived.
#[unsafe(no_mangle)]
pub extern "C" fn themis_history_check(
    alloc: Global,
    history: &mut History,
    session: u32,
    before: &[CTx],
    arrived: &[CTx],
    at: &mut usize,
) -> u32
    ensures status { IsCheckStatus result session (is_known (final_in history.old.keys)) (map tx_of before.now) (map tx_of arrived.now) at.old at.new }
    ensures same { final_in history.new.keys ≡ final_in history.old.keys }
{
    let Ok(before) = list_of(alloc, before) else {
        return NO_MEMORY;
    };
    let Ok(arrived) = list_of(alloc, arrived) else {
        return NO_MEMORY;
    };
    let Ok(txs) = history.take_or_new(alloc) else {
        return NO_MEMORY;
    };
    let status = check(&txs, session, &before, &arrived, at);
    history.put(txs);
    status
}

fn check(txs: &FinalTxs, session: u32, before: &[Tx], arrived: &[Tx], at: &mut usize) -> u32
    ensures { IsCheckStatus result session (is_known txs.now) before.now arrived.now at.old at.new }
{
    match txs.check_arrivals(session, before, arrived) {
        Ok(()) => OK,
        Err(ArrivalFault::AlreadyFinal { at: place }) => {
            *at = place;
            ALREADY_FINAL
        }
        Err(ArrivalFault::OtherMarker { at: place }) => {
            *at = place;
            OTHER_MARKER
        }
        Err(ArrivalFault::NotCarried) => NOT_CARRIED,
        Err(ArrivalFault::NoMemory) => NO_MEMORY,
    }
}

/// Copies what a replica carries over to the next session, of what arrived at it in the one that was added last, into a buffer,
/// and writes how many transactions these are.
#[unsafe(no_mangle)]
pub extern "C" fn themis_history_carried(
    alloc: Global,
    history: &mut History,
    arrived: &[CTx],
    into: &mut [CTx],
    count: &mut usize,
) -> u32
    ensures given { result ≢ NO_MEMORY
        → IsGiven (Some (map c_tx (left_of (is_known (final_in history.old.keys)) (map tx_of arrived.now)))) result into.old into.new count.new }
    ensures kept { result ≢ OK → into.new ≡ into.old }
    ensures uncounted { result ≡ NO_MEMORY → count.new ≡ count.old }
    ensures same { final_in history.new.keys ≡ final_in history.old.keys }
{
    let Ok(arrived) = list_of(alloc, arrived) else {
        return NO_MEMORY;
    };
    let Ok(txs) = history.take_or_new(alloc) else {
        return NO_MEMORY;
    };
    let status = copy_carried(&txs, &arrived, into, count);
    history.put(txs);
    status
}

fn copy_carried(txs: &FinalTxs, arrived: &[Tx], into: &mut [CTx], count: &mut usize) -> u32
    ensures given { result ≢ NO_MEMORY → IsGiven (Some (map c_tx (left_of (is_known txs.now) arrived.now))) result into.old into.new count.new }
    ensures kept { result ≢ OK → into.new ≡ into.old }
    ensures uncounted { result ≡ NO_MEMORY → count.new ≡ count.old }
{
    match txs.left_of(arrived) {
        Err(_) => NO_MEMORY,
        Ok(left) => copy_txs(left.as_slice(), into, count),
    }
}

/// Frees the history. Nothing is final in it then.
#[unsafe(no_mangle)]
pub extern "C" fn themis_history_free(alloc: Global, history: &mut History)
    ensures { history.new.keys ≡ None }
{
    if let Some(txs) = history.take(alloc) {
        drop(txs);
    }
}
