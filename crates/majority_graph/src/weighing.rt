ghost use Rattle.std.specs.Prelude.{◌≡◌, ℕ, ◌++◌, ◌<◌, ◌≤◌, ◌^◌, length, map, drop, All, IfOk, Some, slice_get, slice_index_or};
ghost use Rattle.std.specs.List.Sorted.{IsStrictlySortedBy};
ghost use Rattle.seq_base.specs.Tx.{tx_cmp};
ghost use Rattle.seq_base.specs.declared.tx.Tx.{Tx};
ghost use Rattle.majority_graph.specs.declared.edge.Edge.TheVariants.{Missing};
ghost use Rattle.majority_graph.specs.Edges.{outweighs, edge_between, opposite_of};
ghost use Rattle.majority_graph.specs.Graph.{edge_at, graph_of};
ghost use Rattle.majority_graph.specs.Ranks.{columns_by_list, ranked_edge};

use crate::columns::{columns_by_list, edges_from};
use crate::ranks::{Ranked, narrowed, rank_all, weights};
use crate::{Edge, Proposal};
use seq_base::{NoMemory, Setting, Tx, TxList};
use std::alloc::Global;

/// Weighs each pair of the vertices over the lists, and gives it the edge of its weights. Lists of 2^32 transactions or
/// more give `NoMemory`.
pub fn weigh(
    alloc: Global,
    setting: &Setting,
    vertices: TxList,
    lists: &[TxList],
) -> Result<Proposal, NoMemory>
    requires ascending { IsStrictlySortedBy tx_cmp vertices }
    requires few { length vertices ≤ 2048 }
    ensures graph { IfOk result (λ g. g ≡ graph_of setting.now lists.now vertices) }

    // For the numbers of two vertices, the edge is the one that the lists give to the two.
    ensures edges { IfOk result (λ g. (u v : ℕ) (a b : Tx) → slice_get vertices u ≡ Some a → slice_get vertices v ≡ Some b
        → edge_at g u v ≡ edge_between setting.now lists.now a b) }
{
    let edges = edges_of(alloc, setting, vertices.as_slice(), lists)?;
    Ok(Proposal::of(alloc, vertices, edges))
}

/// For each vertex, its edges by the lists.
fn edges_of(
    alloc: Global,
    setting: &Setting,
    vertices: &[Tx],
    lists: &[TxList],
) -> Result<Vec<Vec<Edge>>, NoMemory>
    requires { IsStrictlySortedBy tx_cmp vertices.now }
    ensures { IfOk result (λ rows. map (λ row. row.items) rows.items
        ≡ map (λ u. map (edge_between setting.now lists.now u) vertices.now) vertices.now) }
{
    let ranked = rank_all(alloc, vertices, lists)?;
    let rows = rows_of(alloc, setting.threshold(), lists.len(), &ranked)?;
    Ok(rows)
}

/// For each vertex, its edges by places in this many lists.
pub(crate) fn rows_of(
    alloc: Global,
    threshold: u32,
    lists: usize,
    ranked: &[Ranked],
) -> Result<Vec<Vec<Edge>>, NoMemory>
    requires ascending { IsStrictlySortedBy tx_cmp (map (λ r. r.tx) ranked.now) }
    requires even { All (λ r. length r.places.items ≡ lists) ranked.now }
    ensures { IfOk result (λ rows. map (λ row. row.items) rows.items
        ≡ map (λ from. map (ranked_edge threshold from) ranked.now) ranked.now) }
{
    // So each weight fits a u32.
    let _most = narrowed(lists)?;
    let columns = columns_by_list(alloc, lists, ranked)?;
    let mut forward = vec![in alloc; 0u32; ranked.len()]?;
    let mut backward = vec![in alloc; 0u32; ranked.len()]?;
    let mut edges = vec![in alloc; Edge::Missing; ranked.len()]?;
    rows_by_columns(
        alloc,
        threshold,
        ranked,
        &columns,
        forward.as_mut_slice(),
        backward.as_mut_slice(),
        edges.as_mut_slice(),
    )
}

/// The same from the places list by list. The weights and the edges of one vertex are written over for each.
fn rows_by_columns(
    alloc: Global,
    threshold: u32,
    ranked: &[Ranked],
    columns: &[Vec<u32>],
    forward: &mut [u32],
    backward: &mut [u32],
    edges: &mut [Edge],
) -> Result<Vec<Vec<Edge>>, NoMemory>
    requires ascending { IsStrictlySortedBy tx_cmp (map (λ r. r.tx) ranked.now) }
    requires even { All (λ r. length r.places.items ≡ length columns.now) ranked.now }
    requires few { length columns.now < 2 ^ 32 }
    requires columns { map (λ column. column.items) columns.now ≡ columns_by_list ranked.now (length columns.now) }
    requires forward { length forward.old ≡ length ranked.now }
    requires backward { length backward.old ≡ length ranked.now }
    requires edges { length edges.old ≡ length ranked.now }
    ensures { IfOk result (λ rows. map (λ row. row.items) rows.items
        ≡ map (λ from. map (ranked_edge threshold from) ranked.now) ranked.now) }
{
    let mut rows = Vec::with_capacity(alloc, ranked.len())?;
    for at in 0..ranked.len() {
        edges_from(threshold, columns, at, forward, backward, edges);
        rows.push(row_of(alloc, &rows, edges)?)?;
    }
    Ok(rows)
}

/// The edges of the vertex whose row comes next. A pair is weighed in the row of its lesser vertex.
fn row_of(alloc: Global, rows: &[Vec<Edge>], edges: &[Edge]) -> Result<Vec<Edge>, NoMemory>
    requires inside { length rows.now < length edges.now }
    requires rows { All (λ row. length rows.now < length row) (map (λ row. row.items) rows.now) }
    ensures { IfOk result (λ row. row.items
        ≡ map (λ known. opposite_of (slice_index_or known (length rows.now) Missing)) (map (λ row. row.items) rows.now)
        ++ drop (length rows.now) edges.now) }
{
    let mut row = mirrored(alloc, rows, edges.len())?;
    row.extend_from_slice(&edges[rows.len()..])?;
    Ok(row)
}

/// The edges of the vertex whose row comes next to the vertices before it, taken from their rows.
fn mirrored(alloc: Global, rows: &[Vec<Edge>], count: usize) -> Result<Vec<Edge>, NoMemory>
    requires { All (λ row. length rows.now < length row) (map (λ row. row.items) rows.now) }
    ensures { IfOk result (λ row. row.items
        ≡ map (λ known. opposite_of (slice_index_or known (length rows.now) Missing)) (map (λ row. row.items) rows.now)) }
{
    let mut row = Vec::with_capacity(alloc, count)?;
    for known in rows {
        row.push(known[rows.len()].opposite())?;
    }
    Ok(row)
}

pub(crate) fn edge_of(threshold: u32, from: &Ranked, to: &Ranked) -> Edge
    ensures { result ≡ ranked_edge threshold from.now to.now }
{
    let (forward, backward) = weights(from, to);
    if gives_edge(threshold, forward, backward, from.tx.cmp(&to.tx).is_lt()) {
        Edge::To
    } else if gives_edge(threshold, backward, forward, to.tx.cmp(&from.tx).is_lt()) {
        Edge::From
    } else {
        Edge::Missing
    }
}

/// Whether the weights give the edge forward: the forward weight reaches the threshold, and exceeds the backward
/// weight or ties with it where the edge goes to the greater transaction.
fn gives_edge(threshold: u32, forward: usize, backward: usize, rises: bool) -> bool
    ensures { result ≡ outweighs threshold forward backward rises }
{
    forward >= threshold as usize && (forward > backward || (forward == backward && rises))
}
