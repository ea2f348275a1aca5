ghost use Rattle.std.specs.Prelude.{◌≡◌, ◌<◌, IfOk, length, slice_get, Some};
ghost use Rattle.majority_graph.specs.Graph.{IsGraph};
ghost use Rattle.fair_update.specs.Ranks.{AreCounted};
ghost use Rattle.fair_update.specs.Waiting.{waits, waiting_of};

use majority_graph::{Edge, Proposal};
use seq_base::{NoMemory, Tx, TxList};
use std::alloc::Global;

/// The transactions of a proposal that belong to a missing pair, in ascending order.
pub fn waiting(alloc: Global, proposal: &Proposal) -> Result<TxList, NoMemory>
    ensures value { IfOk result (λ txs. txs ≡ waiting_of proposal.now) }
    ensures graph { IsGraph proposal.now }
{
    let ranked = rank_waiting(alloc, proposal)?;
    Ok(TxList::of(ranked.txs))
}

/// The waiting transactions, and for each vertex how many of them come before it.
#[derive(Drop)]
pub(crate) struct Ranked {
    pub(crate) txs: Vec<Tx>,
    pub(crate) ranks: Vec<u32>,
}

pub(crate) fn rank_waiting(alloc: Global, proposal: &Proposal) -> Result<Ranked, NoMemory>
    ensures counted { IfOk result (λ ranked. AreCounted proposal.now (length proposal.now.vertices) ranked.txs.items ranked.ranks.items) }
    ensures graph { IsGraph proposal.now }
{
    let vertices = proposal.as_slice();
    let mut txs = Vec::new(alloc);
    let mut ranks = Vec::with_capacity(alloc, vertices.len())?;
    for (u, tx) in vertices.iter().enumerate() {
        ranks.push(txs.len() as u32)?;
        if waits_at(proposal, u as u32, *tx) {
            txs.push(*tx)?;
        }
    }
    Ok(Ranked { txs, ranks })
}

/// Whether a vertex belongs to a missing pair.
fn waits_at(proposal: &Proposal, u: u32, tx: Tx) -> bool
    requires { slice_get proposal.now.vertices u ≡ Some tx }
    ensures { result ≡ waits proposal.now tx }
{
    let count = proposal.len();
    for v in 0..count {
        if u != v && proposal.edge(u, v) == Edge::Missing {
            return true;
        }
    }
    false
}
