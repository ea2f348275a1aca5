ghost use Rattle.std.specs.Prelude.{◌≡◌, ◌<◌, ◌↔◌, ℕ, IfOk, length, slice_index_or};
ghost use Rattle.majority_graph.specs.Graph.{edge_at, HasEdge};
ghost use Rattle.majority_graph.specs.Walks.{Walks};
ghost use Rattle.walks.specs.declared.mark.Mark.TheVariants.{Unseen, Done};
ghost use Rattle.walks.specs.Marks.{opened};

use crate::mark::{Mark, next_open};
use majority_graph::{Edge, Proposal};
use seq_base::NoMemory;
use std::alloc::Global;

/// Follows edges from one vertex until no vertex is open. Each vertex that is reached ends as done. The search for
/// the next open vertex starts at the last one.
pub(crate) fn search(alloc: Global, graph: &Proposal, from: u32) -> Result<Vec<Mark>, NoMemory>
    requires { from < length graph.now.vertices }
    ensures each { IfOk result (λ marks. length marks.items ≡ length graph.now.vertices) }
    ensures done { IfOk result (λ marks. (v : ℕ) → (slice_index_or marks.items v Unseen ≡ Done) ↔ Walks (HasEdge graph.now) from v) }
{
    let mut marks = vec![in alloc; Mark::Unseen; graph.len() as usize]?;
    marks[from as usize] = Mark::Open;
    let mut start = from as usize;
    while let Some(at) = next_open(&marks, start) {
        marks[at] = Mark::Done;
        follow(graph, at as u32, &mut marks);
        start = at;
    }
    Ok(marks)
}

/// Opens each vertex that an edge leads to and that was not reached before.
fn follow(graph: &Proposal, at: u32, marks: &mut [Mark])
    requires from { at < length graph.now.vertices }
    requires each { length marks.old ≡ length graph.now.vertices }
    ensures { (v : ℕ) → slice_index_or marks.new v Unseen ≡ opened (edge_at graph.now at v) (slice_index_or marks.old v Unseen) }
{
    for to in 0..graph.len() {
        let mark = marks[to as usize];
        if mark == Mark::Unseen && graph.edge(at, to) == Edge::To {
            marks[to as usize] = Mark::Open;
        }
    }
}
