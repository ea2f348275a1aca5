//! Lists of transactions as texts. `m0` is the marker of session 0, and another number is the client of a transaction.
//! Spaces separate transactions, commas batches, and slashes sessions.
use crate::cases::number_of;
use seq_base::{BatchList, Tx, TxList};
use session_rules::marker;
use std::alloc::Global;
use std::fmt::Write;
use std::test::Fail;

pub(crate) fn read_txs(alloc: Global, text: &str) -> Result<TxList, Fail> {
    let mut txs = Vec::new(alloc);
    for word in text.split(' ') {
        if !word.is_empty() {
            txs.push(tx_of(word))?;
        }
    }
    Ok(TxList::of(txs))
}

fn tx_of(word: &str) -> Tx {
    match word.strip_prefix('m') {
        Some(session) => marker(number_of(session)),
        None => Tx {
            client: number_of(word),
            number: 1,
            payload: 0,
        },
    }
}

/// The batches of a session.
pub(crate) fn read_batches(alloc: Global, text: &str) -> Result<BatchList, Fail> {
    read_lists(alloc, text, ',')
}

/// The arrival list of each session.
pub(crate) fn read_arrivals(alloc: Global, text: &str) -> Result<BatchList, Fail> {
    read_lists(alloc, text, '/')
}

/// An empty text has no list.
fn read_lists(alloc: Global, text: &str, separator: char) -> Result<BatchList, Fail> {
    let mut lists = Vec::new(alloc);
    if !text.is_empty() {
        for part in text.split(separator) {
            lists.push(read_txs(alloc, part)?)?;
        }
    }
    Ok(BatchList::of(lists))
}

/// The batches of each session.
pub(crate) fn read_sessions(alloc: Global, text: &str) -> Result<Vec<BatchList>, Fail> {
    let mut sessions = Vec::new(alloc);
    if !text.is_empty() {
        for part in text.split('/') {
            sessions.push(read_batches(alloc, part)?)?;
        }
    }
    Ok(sessions)
}

pub(crate) fn write_txs(answer: &mut String, txs: &[Tx]) -> Result<(), Fail> {
    for tx in txs {
        if tx.client == 0 {
            write!(answer, " m{}", tx.number)?;
        } else {
            write!(answer, " {}", tx.client)?;
        }
    }
    Ok(())
}
