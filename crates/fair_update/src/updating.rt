ghost use Rattle.std.specs.Prelude.{◌≡◌, ◌<◌, length, OnOk, IsErr};
ghost use Rattle.majority_graph.specs.declared.edge.Edge.TheVariants.{Missing};
ghost use Rattle.majority_graph.specs.Graph.{ChangesPair, IsGraph, edge_at};
ghost use Rattle.fair_update.specs.Merging.{AreRanked, IsMerged, IsRanked, edge_by_rank};
ghost use Rattle.majority_graph.specs.Later.{or_edge};
ghost use Rattle.fair_update.specs.Updates.{updated};

use crate::ranking::rank_waiting;
use majority_graph::{Edge, Proposal, weigh};
use seq_base::{NoMemory, Setting, TxList};
use std::alloc::Global;

/// Gives missing pairs the edges of the late lists of one more block. An existing edge stays. Only waiting
/// transactions are weighed.
pub fn update(
    alloc: Global,
    setting: &Setting,
    proposal: &mut Proposal,
    late: &[TxList],
) -> Result<(), NoMemory>
    ensures updated { OnOk result (proposal.new ≡ updated setting.now late.now proposal.old) }
    ensures refused { IsErr result → proposal.new ≡ proposal.old }
{
    let ranked = rank_waiting(alloc, proposal)?;
    let given = weigh(alloc, setting, TxList::of(ranked.txs), late)?;
    merge(proposal, &given, &ranked.ranks);
    Ok(())
}

/// Each missing pair takes the edge that it is given. Takes no memory.
fn merge(proposal: &mut Proposal, given: &Proposal, ranks: &[u32])
    requires { AreRanked proposal.old given.now.vertices ranks.now }
    ensures merged { IsMerged proposal.old given.now ranks.now proposal.new }
    ensures graph { IsGraph proposal.new }
{
    let count = proposal.len();
    for u in 0..count {
        for v in u + 1..count {
            merge_pair(proposal, given, ranks, u, v);
        }
    }
    let _same = proposal.len();
}

fn merge_pair(proposal: &mut Proposal, given: &Proposal, ranks: &[u32], u: u32, v: u32)
    requires rises { u < v }
    requires inside { v < length proposal.old.vertices }
    requires long { length ranks.now ≡ length proposal.old.vertices }
    requires from { edge_at proposal.old u v ≡ Missing → IsRanked proposal.old.vertices given.now.vertices ranks.now u }
    requires to { edge_at proposal.old u v ≡ Missing → IsRanked proposal.old.vertices given.now.vertices ranks.now v }
    ensures { ChangesPair proposal.old proposal.new u v (or_edge (edge_at proposal.old u v) (edge_by_rank given.now ranks.now u v)) }
{
    if proposal.edge(u, v) == Edge::Missing {
        match given.edge(ranks[u as usize], ranks[v as usize]) {
            Edge::To => proposal.set_edge(u, v, true),
            Edge::From => proposal.set_edge(u, v, false),
            Edge::Missing => {}
        }
    }
}
