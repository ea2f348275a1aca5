//! The fields of fixed width, and lists of transactions and of bytes, each read from the start of the bytes.
ghost use Rattle.std.specs.Prelude.{◌≡◌, ◌<◌, ◌&&◌, ◌||◌, List, [], ◌∷◌, ◌++◌, not, IfOk, OnOk};
ghost use Rattle.std.specs.List.{list_any};
ghost use Rattle.seq_base.specs.Lists.{holds};
ghost use Rattle.seq_base.specs.Tx.{tx_eq};
ghost use Rattle.seq_base.specs.declared.tx.Tx.{Tx};
ghost use Rattle.trace_form.specs.Seen.{Knows};
ghost use Rattle.std.specs.Int.{w16, w32, w64};
ghost use Rattle.trace_form.specs.Gives.{Gives};
ghost use Rattle.trace_form.specs.Reading.{byte_at, number_at, piece_at, each_at};
ghost use Rattle.trace_form.specs.Lists.{count_at, tx_at, new_tx_at, list_at, bytes_at};

use crate::fault::Stop;
use seq_base::{Bytes, NoMemory, Tx, TxList};
use std::alloc::Global;
use std::collections::HashSet;

/// The maximum number of transactions in a list.
const MAX_TXS: u32 = 65_536;

pub(crate) fn read_byte(bytes: &[u8]) -> Result<(u32, &[u8]), Stop>
    ensures gives { Gives (λ x. (x.0, x.1.now)) result (byte_at bytes.now) }
    ensures byte { IfOk result (λ x. x.0 < 256) }
{
    match bytes {
        [] => Err(Stop::Left(0)),
        [first, rest @ ..] => Ok((u32::from(*first), rest)),
    }
}

pub(crate) fn read_u16(bytes: &[u8]) -> Result<(u32, &[u8]), Stop>
    ensures { Gives (λ x. (x.0, x.1.now)) result (number_at w16 bytes.now) }
{
    if bytes.len() < 2 {
        return Err(Stop::Left(bytes.len()));
    }
    let (prefix, rest) = bytes.split_at(2);
    let number = u16::from_be_bytes([prefix[0], prefix[1]]);
    Ok((u32::from(number), rest))
}

pub(crate) fn read_u32(bytes: &[u8]) -> Result<(u32, &[u8]), Stop>
    ensures { Gives (λ x. (x.0, x.1.now)) result (number_at w32 bytes.now) }
{
    if bytes.len() < 4 {
        return Err(Stop::Left(bytes.len()));
    }
    let (prefix, rest) = bytes.split_at(4);
    let number = u32::from_be_bytes([prefix[0], prefix[1], prefix[2], prefix[3]]);
    Ok((number, rest))
}

pub(crate) fn read_u64(bytes: &[u8]) -> Result<(u64, &[u8]), Stop>
    ensures { Gives (λ x. (x.0, x.1.now)) result (number_at w64 bytes.now) }
{
    if bytes.len() < 8 {
        return Err(Stop::Left(bytes.len()));
    }
    let (prefix, rest) = bytes.split_at(8);
    let number = u64::from_be_bytes([
        prefix[0], prefix[1], prefix[2], prefix[3], prefix[4], prefix[5], prefix[6], prefix[7],
    ]);
    Ok((number, rest))
}

pub(crate) fn read_piece(size: u32, bytes: &[u8]) -> Result<(&[u8], &[u8]), Stop>
    ensures { Gives (λ x. (x.0.now, x.1.now)) result (piece_at size bytes.now) }
{
    let size = size as usize;
    if bytes.len() < size {
        return Err(Stop::Left(bytes.len()));
    }
    Ok(bytes.split_at(size))
}

/// A count of at most this number.
#[tactic(auto, unfolding(crate::specs::Lists::count_at))]
fn read_count(most: u32, bytes: &[u8]) -> Result<(u32, &[u8]), Stop>
    ensures { Gives (λ x. (x.0, x.1.now)) result (count_at most bytes.now) }
{
    let (count, rest) = read_u32(bytes)?;
    if count > most {
        return Err(Stop::Left(bytes.len()));
    }
    Ok((count, rest))
}

#[tactic(auto, unfolding(crate::specs::Lists::tx_at))]
fn read_tx(bytes: &[u8]) -> Result<(Tx, &[u8]), Stop>
    ensures { Gives (λ x. (x.0, x.1.now)) result (tx_at bytes.now) }
{
    let (client, rest) = read_u32(bytes)?;
    let (number, rest) = read_u32(rest)?;
    let (payload, rest) = read_u64(rest)?;
    Ok((
        Tx {
            client,
            number,
            payload,
        },
        rest,
    ))
}

/// Transactions, preceded by their count. If they have to be distinct, a repeated one is a fault.
#[tactic(auto, unfolding(crate::specs::Lists::list_at))]
pub(crate) fn read_list(
    alloc: Global,
    distinct: bool,
    bytes: &[u8],
) -> Result<(TxList, &[u8]), Stop>
    ensures { Gives (λ x. (x.0, x.1.now)) result (list_at distinct bytes.now) }
{
    let (count, rest) = read_count(MAX_TXS, bytes)?;
    let (txs, rest) = read_txs(alloc, distinct, count, rest)?;
    Ok((TxList::of(txs), rest))
}

#[tactic(auto, using(crate::proofs::Steps::each_goes_on, crate::proofs::Steps::each_blames, crate::proofs::Steps::each_ends))]
fn read_txs(
    alloc: Global,
    distinct: bool,
    count: u32,
    bytes: &[u8],
) -> Result<(Vec<Tx>, &[u8]), Stop>
    ensures { Gives (λ x. (x.0.items, x.1.now)) result (each_at (new_tx_at distinct) count [] bytes.now) }
{
    let mut txs = Vec::new(alloc);
    let mut seen = HashSet::new(alloc);
    let mut rest = bytes;
    for _at in 0..count {
        let (tx, following) = read_new_tx(distinct, &mut seen, rest)?;
        txs.push(tx)?;
        rest = following;
    }
    Ok((txs, rest))
}

/// A transaction. If all have to be distinct, one that is not repeated.
#[tactic(auto, unfolding(crate::specs::Lists::new_tx_at))]
fn read_new_tx<'a>(
    distinct: bool,
    seen: &mut HashSet<Tx>,
    bytes: &'a [u8],
) -> Result<(Tx, &'a [u8]), Stop>
    ensures gives { (before : List Tx) → Knows distinct before seen.old.keys → Gives (λ x. (x.0, x.1.now)) result (new_tx_at distinct before bytes.now) }
    ensures knows { (before : List Tx) → Knows distinct before seen.old.keys → IfOk result (λ x. Knows distinct (before ++ x.0 ∷ []) seen.new.keys) }
{
    let (tx, rest) = read_tx(bytes)?;
    if !is_new(distinct, seen, tx)? {
        return Err(Stop::Left(bytes.len()));
    }
    Ok((tx, rest))
}

/// Whether a transaction is new, which adds it to those seen. If they need not be distinct, it is not looked up.
fn is_new(distinct: bool, seen: &mut HashSet<Tx>, tx: Tx) -> Result<bool, NoMemory>
    ensures new { (before : List Tx) → Knows distinct before seen.old.keys → IfOk result (λ new. new ≡ not (distinct && holds tx before)) }
    ensures knows { (before : List Tx) → Knows distinct before seen.old.keys → OnOk result (Knows distinct (before ++ tx ∷ []) seen.new.keys) }
{
    if distinct { insert(seen, tx) } else { Ok(true) }
}

/// Whether the transaction was new.
fn insert(seen: &mut HashSet<Tx>, tx: Tx) -> Result<bool, NoMemory>
    ensures new { IfOk result (λ new. new ≡ not (list_any (tx_eq tx) seen.old.keys)) }
    ensures more { OnOk result ((t : Tx) → list_any (tx_eq t) seen.new.keys ≡ (list_any (tx_eq t) seen.old.keys || holds t (tx ∷ []))) }
{
    Ok(seen.insert(tx)?)
}

/// `count` such lists.
#[tactic(auto, using(crate::proofs::Steps::each_goes_on, crate::proofs::Steps::each_blames, crate::proofs::Steps::each_ends))]
pub(crate) fn read_lists(
    alloc: Global,
    distinct: bool,
    count: u32,
    bytes: &[u8],
) -> Result<(Vec<TxList>, &[u8]), Stop>
    ensures { Gives (λ x. (x.0.items, x.1.now)) result (each_at (λ before. list_at distinct) count [] bytes.now) }
{
    let mut lists = Vec::new(alloc);
    let mut rest = bytes;
    for _at in 0..count {
        let (list, following) = read_list(alloc, distinct, rest)?;
        lists.push(list)?;
        rest = following;
    }
    Ok((lists, rest))
}

/// Bytes, preceded by their count.
#[tactic(auto, unfolding(crate::specs::Lists::bytes_at))]
pub(crate) fn read_bytes(alloc: Global, bytes: &[u8]) -> Result<(Bytes, &[u8]), Stop>
    ensures { Gives (λ x. (x.0, x.1.now)) result (bytes_at bytes.now) }
{
    let (size, rest) = read_u32(bytes)?;
    let (piece, rest) = read_piece(size, rest)?;
    Ok((Bytes::of(Vec::from_slice(alloc, piece)?), rest))
}
