ghost use Rattle.std.specs.Prelude.{◌≡◌, ◌<◌, ◌↔◌, ℕ, IsTrue, IfOk, length, map};
ghost use Rattle.majority_graph.specs.Graph.{HasEdge};
ghost use Rattle.majority_graph.specs.Walks.{Walks};
ghost use Rattle.walks.specs.Reach.{reaches_in};

use crate::mark::Mark;
use crate::search::search;
use majority_graph::Proposal;
use seq_base::NoMemory;
use std::alloc::Global;
use std::marker::Model;

/// For each vertex, the vertices that a walk leads to. Contracts see it as rows of Booleans.
#[derive(Drop)]
pub struct Reach {
    rows: Vec<Vec<Mark>>,
}

impl Model for Reach {
    ghost use Rattle.std.specs.Prelude.{◌≡◌, List, Bool, All, length, map};
    ghost use Rattle.walks.specs.Marks.{is_followed};

    ghost Value = { List (List Bool) };

    ghost view = { λ r. map (λ row. map is_followed row.items) r.rows.items };

    ghost invariant = { λ r. All (λ row. length row.items ≡ length r.rows.items) r.rows.items };
}

/// Searches from each vertex in turn.
pub fn closure(alloc: Global, graph: &Proposal) -> Result<Reach, NoMemory>
    ensures each { IfOk result (λ reach. length reach ≡ length graph.now.vertices) }
    ensures walks { IfOk result (λ reach. (u v : ℕ) → u < length graph.now.vertices → v < length graph.now.vertices
        → IsTrue (reaches_in reach u v) ↔ Walks (HasEdge graph.now) u v) }
{
    let mut rows = Vec::new(alloc);
    for from in 0..graph.len() {
        rows.push(search(alloc, graph, from)?)?;
    }
    Ok(Reach { rows })
}

impl Reach {
    /// Whether a walk leads from u to v. Takes no memory.
    pub fn reaches(&self, u: u32, v: u32) -> bool
        requires from { u < length self.now }
        requires to { v < length self.now }
        ensures { result ≡ reaches_in self.now u v }
    {
        let row = &self.rows[u as usize];
        row[v as usize].is_followed()
    }
}
