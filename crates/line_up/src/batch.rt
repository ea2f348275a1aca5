ghost use Rattle.std.specs.Prelude.{◌≡◌, ◌<◌, ◌≤◌, List, IfOk, length, map, All, true};
ghost use Rattle.std.specs.List.Sorted.{IsStrictlySortedBy};
ghost use Rattle.seq_base.specs.declared.tx.Tx.{Tx};
ghost use Rattle.seq_base.specs.Lists.{holds};
ghost use Rattle.seq_base.specs.Setting.{Parameters};
ghost use Rattle.seq_base.specs.Tx.{tx_cmp};
ghost use Rattle.majority_graph.specs.Edges.{gives_edge};
ghost use Rattle.majority_graph.specs.Graph.{IsComplete, graph_of};
ghost use Rattle.majority_graph.specs.Ranks.{place};
ghost use Rattle.line_up.specs.Line.{line_of};
ghost use Rattle.line_up.specs.Paths.{tx_at};

use crate::line;
use majority_graph::{Proposal, complete_graphs_have_all_edges};
use seq_base::{NoMemory, Tx};
use std::alloc::Global;

/// The transactions of a batch in their line. Where the proposal has the edges of lists, this is their line by those
/// edges.
pub fn line_of_batch(alloc: Global, proposal: &Proposal, batch: &[Tx]) -> Result<Vec<Tx>, NoMemory>
    requires complete { IsComplete proposal.now }
    requires ascending { IsStrictlySortedBy tx_cmp batch.now }
    requires vertices { All (λ t. holds t proposal.now.vertices ≡ true) batch.now }
    ensures { IfOk result (λ line. (s : Parameters) (lists : List (List Tx)) → proposal.now ≡ graph_of s lists proposal.now.vertices
        → line.items ≡ line_of (gives_edge s lists) batch.now) }
{
    complete_graphs_have_all_edges();
    let vertices = proposal.as_slice();
    let members = numbers_of(alloc, vertices, batch)?;
    let line = line(alloc, proposal, &members)?;
    let txs = transactions_of(alloc, vertices, &line)?;
    Ok(txs)
}

/// The vertex number of each transaction.
fn numbers_of(alloc: Global, vertices: &[Tx], txs: &[Tx]) -> Result<Vec<u32>, NoMemory>
    requires { length vertices.now ≤ 2048 }
    ensures { IfOk result (λ numbers. numbers.items ≡ map (λ t. place t vertices.now) txs.now) }
{
    let mut numbers = Vec::with_capacity(alloc, txs.len())?;
    for tx in txs {
        numbers.push(number_of(vertices, tx))?;
    }
    Ok(numbers)
}

fn number_of(vertices: &[Tx], tx: &Tx) -> u32
    requires { length vertices.now ≤ 2048 }
    ensures { result ≡ place tx.now vertices.now }
{
    for (at, vertex) in vertices.iter().enumerate() {
        if *vertex == *tx {
            return at as u32;
        }
    }
    vertices.len() as u32
}

/// The transaction of each vertex number.
fn transactions_of(alloc: Global, vertices: &[Tx], numbers: &[u32]) -> Result<Vec<Tx>, NoMemory>
    requires { All (λ v. v < length vertices.now) numbers.now }
    ensures { IfOk result (λ txs. txs.items ≡ map (tx_at vertices.now) numbers.now) }
{
    let mut txs = Vec::with_capacity(alloc, numbers.len())?;
    for number in numbers {
        txs.push(vertices[*number as usize])?;
    }
    Ok(txs)
}
