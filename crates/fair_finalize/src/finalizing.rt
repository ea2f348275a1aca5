ghost use Rattle.std.specs.Prelude.{◌≡◌, ◌<◌, ℕ, [], IfOk, IfErr, OnOk, IfSome, IsNone, ◌↔◌, length, map, slice_index};
ghost use Rattle.majority_graph.specs.Graph.{IsComplete};
ghost use Rattle.batch_laws.specs.Batches.{AreBatches, lists_of};
ghost use Rattle.batch_laws.specs.Reached.{batches_of};
ghost use Rattle.fair_finalize.specs.Causes.{HasCause, IsLeastMissing};
ghost use Rattle.fair_finalize.specs.Filling.{with_one_more};

use condense::components;
use majority_graph::Proposal;
use seq_base::{BatchList, NoMemory, Tx, TxList};
use std::alloc::{AllocFailed, Global};
use std::error::Error;
use std::fmt;

/// Why a proposal has no batches.
#[derive(Clone, Copy, Debug, PartialEq, Eq)]
pub enum FinalFault {
    /// A pair has no edge. The least such pair is reported, with u before v.
    Incomplete { u: Tx, v: Tx },
    /// Out of memory.
    NoMemory,
}

impl fmt::Display for FinalFault {
    ghost use Rattle.std.specs.Prelude.{Some};
    ghost use Rattle.fair_finalize.specs.FaultWords.{fault_words};

    ghost output = { λ fault. Some (fault_words fault) };

    fn fmt<W: fmt::Write>(&self, f: &mut fmt::Formatter<W>) -> fmt::Result {
        match self {
            FinalFault::Incomplete { u, v } => write!(f, "open {u} {v}"),
            FinalFault::NoMemory => write!(f, "no memory"),
        }
    }
}

impl Error for FinalFault {}

impl From<NoMemory> for FinalFault {
    fn from(_: NoMemory) -> Self {
        FinalFault::NoMemory
    }
}

impl<T: Drop> From<AllocFailed<T>> for FinalFault {
    fn from(_: AllocFailed<T>) -> Self {
        FinalFault::NoMemory
    }
}

/// The strong components of a complete proposal, in the order of its edges. The transactions of a batch are ascending.
///
/// Returns [`FinalFault::Incomplete`] with the least missing pair where a pair has no edge. This check takes no memory,
/// so that only a complete proposal can return [`FinalFault::NoMemory`].
pub fn batches(alloc: Global, proposal: &Proposal) -> Result<BatchList, FinalFault>
    ensures batches { IfOk result (λ batches. batches ≡ batches_of proposal.now) }
    ensures are_batches { IfOk result (λ batches. AreBatches proposal.now batches) }
    ensures complete { OnOk result (IsComplete proposal.now) }
    ensures cause { IfErr result (HasCause proposal.now) }
{
    if let Some((u, v)) = least_missing(proposal) {
        return Err(FinalFault::Incomplete { u, v });
    }
    match batches_of_complete(alloc, proposal) {
        Ok(batches) => Ok(batches),
        Err(NoMemory) => Err(FinalFault::NoMemory),
    }
}

/// The least pair without an edge.
fn least_missing(proposal: &Proposal) -> Option<(Tx, Tx)>
    ensures missing { IfSome result (λ pair. IsLeastMissing proposal.now pair.0 pair.1) }
    ensures complete { IsNone result ↔ IsComplete proposal.now }
{
    let (u, v) = proposal.first_missing()?;
    let vertices = proposal.as_slice();
    Some((vertices[u as usize], vertices[v as usize]))
}

fn batches_of_complete(alloc: Global, proposal: &Proposal) -> Result<BatchList, NoMemory>
    requires { IsComplete proposal.now }
    ensures batches { IfOk result (λ batches. batches ≡ batches_of proposal.now) }
    ensures are_batches { IfOk result (λ batches. AreBatches proposal.now batches) }
{
    let groups = components(alloc, proposal)?;
    let batches = lists_by(
        alloc,
        proposal.as_slice(),
        groups.as_slice(),
        groups.count(),
    )?;
    Ok(batches)
}

/// For each number below the count, the transactions with that number.
fn lists_by(alloc: Global, txs: &[Tx], numbers: &[u32], count: u32) -> Result<BatchList, NoMemory>
    requires each { length numbers.now ≡ length txs.now }
    requires below { (u : ℕ) → u < length numbers.now → slice_index numbers.now u < count }
    ensures { IfOk result (λ batches. batches ≡ lists_of numbers.now count txs.now) }
{
    let mut lists = empty_lists(alloc, count)?;
    for at in 0..txs.len() {
        put(&mut lists, numbers[at], txs[at])?;
    }
    let batches = lists.into_iter().map(TxList::of).collect(alloc)?;
    Ok(BatchList::of(batches))
}

fn empty_lists(alloc: Global, count: u32) -> Result<Vec<Vec<Tx>>, NoMemory>
    ensures { IfOk result (λ lists. map (λ list. list.items) lists.items ≡ lists_of [] count []) }
{
    let mut lists = Vec::with_capacity(alloc, count as usize)?;
    for _ in 0..count {
        lists.push(Vec::new(alloc))?;
    }
    Ok(lists)
}

/// Appends a transaction to the list with this number.
fn put(lists: &mut Vec<Vec<Tx>>, number: u32, tx: Tx) -> Result<(), NoMemory>
    requires { number < length lists.old.items }
    ensures { OnOk result (map (λ list. list.items) lists.new.items
        ≡ with_one_more (map (λ list. list.items) lists.old.items) number tx) }
{
    let list = &mut lists[number as usize];
    list.push(tx)?;
    Ok(())
}
