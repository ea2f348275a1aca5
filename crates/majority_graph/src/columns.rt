//! The places of transactions list by list, and the edges of one transaction to those from it on. Each list is
//! compared in a loop without a branch, which the compiler turns into vector instructions.
ghost use Rattle.std.specs.Prelude.{◌≡◌, ◌+◌, ◌^◌, ◌<◌, ◌≤◌, ℕ, All, IfOk, length, map, nat_lt, slice_index, slice_index_or};
ghost use Rattle.std.specs.Int.{from_bool};
ghost use Rattle.majority_graph.specs.declared.edge.Edge.TheVariants.{Missing};
ghost use Rattle.majority_graph.specs.Edges.{edge_upward};
ghost use Rattle.majority_graph.specs.Ranks.{column_edge, column_of, columns_ahead, columns_by_list};

use crate::Edge;
use crate::ranks::Ranked;
use seq_base::NoMemory;
use std::alloc::Global;

/// For each of this many lists, the places of all transactions.
pub(crate) fn columns_by_list(
    alloc: Global,
    lists: usize,
    ranked: &[Ranked],
) -> Result<Vec<Vec<u32>>, NoMemory>
    requires { All (λ r. length r.places.items ≡ lists) ranked.now }
    ensures { IfOk result (λ columns. map (λ column. column.items) columns.items ≡ columns_by_list ranked.now lists) }
{
    let mut columns = Vec::with_capacity(alloc, lists)?;
    for list in 0..lists {
        columns.push(column_of(alloc, list, ranked)?)?;
    }
    Ok(columns)
}

/// The places of all transactions in one list.
fn column_of(alloc: Global, list: usize, ranked: &[Ranked]) -> Result<Vec<u32>, NoMemory>
    requires { All (λ r. list < length r.places.items) ranked.now }
    ensures { IfOk result (λ column. column.items ≡ column_of ranked.now list) }
{
    let mut column = Vec::with_capacity(alloc, ranked.len())?;
    for one in ranked {
        column.push(one.places[list])?;
    }
    Ok(column)
}

/// Writes the edges of the vertex `from` to each vertex from it on. The weights are written over too.
pub(crate) fn edges_from(
    threshold: u32,
    columns: &[Vec<u32>],
    from: usize,
    forward: &mut [u32],
    backward: &mut [u32],
    edges: &mut [Edge],
)
    requires few { length columns.now < 2 ^ 32 }
    requires columns { All (λ column. length column ≡ length edges.old) (map (λ column. column.items) columns.now) }
    requires forward { length forward.old ≡ length edges.old }
    requires backward { length backward.old ≡ length edges.old }
    requires inside { from < length edges.old }
    ensures { (v : ℕ) → from ≤ v → v < length edges.old
        → slice_index_or edges.new v Missing ≡ column_edge threshold (map (λ column. column.items) columns.now) from v }
{
    weigh_from(columns, from, forward, backward);
    for at in from..edges.len() {
        edges[at] = edge_upward(threshold, forward[at], backward[at], from < at);
    }
}

/// The edge of these weights to a transaction that is greater, or to itself.
fn edge_upward(threshold: u32, forward: u32, backward: u32, rises: bool) -> Edge
    ensures { result ≡ edge_upward threshold forward backward rises }
{
    let leads = forward >= threshold && (forward > backward || (forward == backward && rises));
    let returns = backward >= threshold && backward > forward;
    if leads {
        Edge::To
    } else if returns {
        Edge::From
    } else {
        Edge::Missing
    }
}

/// Writes the weights of the pairs of the vertex `from` and each vertex from it on, both ways.
fn weigh_from(columns: &[Vec<u32>], from: usize, forward: &mut [u32], backward: &mut [u32])
    requires few { length columns.now < 2 ^ 32 }
    requires columns { All (λ column. length column ≡ length forward.old) (map (λ column. column.items) columns.now) }
    requires backward { length backward.old ≡ length forward.old }
    requires inside { from < length forward.old }
    ensures forward { (v : ℕ) → from ≤ v → v < length forward.old
        → slice_index forward.new v ≡ columns_ahead (map (λ column. column.items) columns.now) from v }
    ensures backward { (v : ℕ) → from ≤ v → v < length forward.old
        → slice_index backward.new v ≡ columns_ahead (map (λ column. column.items) columns.now) v from }
{
    forward.fill(0);
    backward.fill(0);
    for column in columns {
        add_list(column, from, forward, backward);
    }
}

/// Adds one list to the weights.
fn add_list(column: &[u32], from: usize, forward: &mut [u32], backward: &mut [u32])
    requires forward { length forward.old ≡ length column.now }
    requires backward { length backward.old ≡ length column.now }
    requires inside { from < length column.now }
    requires room_forward { (v : ℕ) → from ≤ v → v < length column.now → slice_index forward.old v + 1 < 2 ^ 32 }
    requires room_backward { (v : ℕ) → from ≤ v → v < length column.now → slice_index backward.old v + 1 < 2 ^ 32 }
    ensures forward { (v : ℕ) → from ≤ v → v < length column.now
        → slice_index forward.new v ≡ slice_index forward.old v + from_bool (nat_lt (slice_index column.now from) (slice_index column.now v)) }
    ensures backward { (v : ℕ) → from ≤ v → v < length column.now
        → slice_index backward.new v ≡ slice_index backward.old v + from_bool (nat_lt (slice_index column.now v) (slice_index column.now from)) }
{
    let own = column[from];
    for at in from..column.len() {
        let place = column[at];
        forward[at] += u32::from(own < place);
        backward[at] += u32::from(place < own);
    }
}
