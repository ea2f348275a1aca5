//! What a set of final transactions takes, keeps and lets arrive, as texts.
use crate::cases::number_of;
use crate::lists::{read_batches, read_txs, write_txs};
use seq_base::{Tx, TxList};
use session_rules::{AddFault, ArrivalFault, FinalTxs};
use std::alloc::Global;
use std::fmt::Write;
use std::test::Fail;

/// What is carried over, of what arrived, once the batches are added.
pub(crate) fn write_left(
    answer: &mut String,
    alloc: Global,
    arrived: &str,
    batches: &str,
) -> Result<(), Fail> {
    let txs = finals_of(alloc, batches)?;
    let arrived = read_txs(alloc, arrived)?;
    write_txs(answer, txs.left_of(arrived.as_slice())?.as_slice())
}

/// Whether a batch is added after the batches, and what of it is not final then.
pub(crate) fn write_added(
    answer: &mut String,
    alloc: Global,
    batch: &str,
    batches: &str,
) -> Result<(), Fail> {
    let mut txs = finals_of(alloc, batches)?;
    let batch = read_txs(alloc, batch)?;
    add(answer, &mut txs, batch.as_slice())?;
    write_txs(answer, txs.left_of(batch.as_slice())?.as_slice())
}

fn add(answer: &mut String, txs: &mut FinalTxs, batch: &[Tx]) -> Result<(), Fail> {
    match txs.add(batch) {
        Ok(()) => Ok(answer.push_str("added:")?),
        Err(AddFault::AlreadyFinal { at }) => Ok(write!(answer, "final {at}:")?),
        Err(AddFault::NoMemory) => Err(Fail::new("no memory")),
    }
}

/// Whether a list may have arrived, after the batches. The lists are the session's number, what arrived in the session before, and
/// what arrived, with slashes between them.
pub(crate) fn write_arrivals(
    answer: &mut String,
    alloc: Global,
    lists: &str,
    batches: &str,
) -> Result<(), Fail> {
    let txs = finals_of(alloc, batches)?;
    let (session, lists) = lists.split_once('/').unwrap_or((lists, ""));
    let (before, arrived) = lists.split_once('/').unwrap_or((lists, ""));
    let before = read_txs(alloc, before)?;
    let arrived = read_txs(alloc, arrived)?;
    check(answer, &txs, number_of(session), &before, &arrived)
}

fn check(
    answer: &mut String,
    txs: &FinalTxs,
    session: u32,
    before: &TxList,
    arrived: &TxList,
) -> Result<(), Fail> {
    match txs.check_arrivals(session, before.as_slice(), arrived.as_slice()) {
        Ok(()) => Ok(answer.push_str("may")?),
        Err(ArrivalFault::AlreadyFinal { at }) => Ok(write!(answer, "final {at}")?),
        Err(ArrivalFault::OtherMarker { at }) => Ok(write!(answer, "other {at}")?),
        Err(ArrivalFault::NotCarried) => Ok(answer.push_str("not carried")?),
        Err(ArrivalFault::NoMemory) => Err(Fail::new("no memory")),
    }
}

/// What is final once the batches are added.
fn finals_of(alloc: Global, batches: &str) -> Result<FinalTxs, Fail> {
    let batches = read_batches(alloc, batches)?;
    let mut txs = FinalTxs::new(alloc);
    add_all(&mut txs, batches.as_slice())?;
    Ok(txs)
}

fn add_all(txs: &mut FinalTxs, batches: &[TxList]) -> Result<(), Fail> {
    for batch in batches {
        if txs.add(batch.as_slice()).is_err() {
            return Err(Fail::new("not added"));
        }
    }
    Ok(())
}
