ghost use Rattle.std.specs.Prelude.{◌≡◌, ◌<◌, ◌^◌, map, All, IfOk, OnOk, length, slice_index_or};
ghost use Rattle.majority_graph.specs.Ranks.{place, IsRanked, ahead};

use crate::lookup::places_in;
use seq_base::{NoMemory, Tx, TxList};
use std::alloc::Global;

/// A transaction with its place in each list. In a list that lacks it, its place is the list's length, after all
/// others.
pub(crate) struct Ranked {
    pub(crate) tx: Tx,
    pub(crate) places: Vec<u32>,
}

impl Drop for Ranked {
    fn drop(self) {
        let Ranked { tx: _, places: _ } = self;
    }
}

/// Looks up each transaction once in each list.
pub(crate) fn rank_all(alloc: Global, txs: &[Tx], lists: &[TxList]) -> Result<Vec<Ranked>, NoMemory>
    ensures txs { IfOk result (λ ranked. map (λ r. r.tx) ranked.items ≡ txs.now) }
    ensures ranked { IfOk result (λ ranked. All (IsRanked lists.now) ranked.items) }
{
    let columns = columns_of(alloc, txs, lists)?;
    let mut ranked = Vec::with_capacity(alloc, txs.len())?;
    for (at, tx) in txs.iter().enumerate() {
        let places = places_at(alloc, &columns, at)?;
        ranked.push(Ranked { tx: *tx, places })?;
    }
    Ok(ranked)
}

/// For each list, the places of all transactions.
fn columns_of(alloc: Global, txs: &[Tx], lists: &[TxList]) -> Result<Vec<Vec<usize>>, NoMemory>
    ensures { IfOk result (λ columns. map (λ column. column.items) columns.items
        ≡ map (λ list. map (λ t. place t list) txs.now) lists.now) }
{
    let mut columns = Vec::with_capacity(alloc, lists.len())?;
    for list in lists {
        columns.push(places_in(alloc, txs, list.as_slice())?)?;
    }
    Ok(columns)
}

/// For one transaction, its places in all lists.
fn places_at(alloc: Global, columns: &[Vec<usize>], at: usize) -> Result<Vec<u32>, NoMemory>
    requires { All (λ column. at < length column) (map (λ column. column.items) columns.now) }
    ensures { IfOk result (λ places. places.items
        ≡ map (λ column. slice_index_or column at 0) (map (λ column. column.items) columns.now)) }
{
    let mut places = Vec::with_capacity(alloc, columns.len())?;
    for column in columns {
        places.push(narrowed(column[at])?)?;
    }
    Ok(places)
}

/// A number of 2^32 or more is treated as out of memory.
pub(crate) fn narrowed(number: usize) -> Result<u32, NoMemory>
    ensures value { IfOk result (λ narrow. narrow ≡ number) }
    ensures fits { OnOk result (number < 2 ^ 32) }
{
    match u32::try_from(number) {
        Ok(narrow) => Ok(narrow),
        Err(_) => Err(NoMemory),
    }
}

/// The weights of a pair. The first is the number of lists that hold the one before the other, or hold only the one.
/// The second is the number for the other way round.
pub(crate) fn weights(one: &Ranked, other: &Ranked) -> (usize, usize)
    ensures forward { result.0 ≡ ahead one.now.places.items other.now.places.items }
    ensures backward { result.1 ≡ ahead other.now.places.items one.now.places.items }
{
    let count = one.places.len().min(other.places.len());
    let (mut forward, mut backward) = (0, 0);
    for at in 0..count {
        let (here, there) = (one.places[at], other.places[at]);
        forward += usize::from(here < there);
        backward += usize::from(there < here);
    }
    (forward, backward)
}
