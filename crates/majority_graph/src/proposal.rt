ghost use Rattle.std.specs.Prelude.{◌≡◌, ◌≢◌, ◌<◌, ◌≤◌, ◌↔◌, ℕ, Some, All, IfOk, IfNone, IfSome, IsFalse, IsNone, MatchBool, length, map, [], slice_get, slice_index_or};
ghost use Rattle.majority_graph.specs.declared.edge.Edge.{Edge};
ghost use Rattle.majority_graph.specs.declared.edge.Edge.TheVariants.{Missing};
ghost use Rattle.majority_graph.specs.Edges.{opposite_of};
ghost use Rattle.majority_graph.specs.Graph.{wanted_of, set_at};

use crate::Edge;
use seq_base::{NoMemory, Tx, TxList};
use std::alloc::Global;
use std::marker::Model;

/// For each vertex, its edges to all vertices, in the order of the vertices.
type Edges = Vec<Vec<Edge>>;

/// The transactions of a proposal, strictly ascending and at most 2,048, and the edge of each pair.
#[derive(Drop)]
pub struct Proposal {
    alloc: Global,
    vertices: TxList,
    edges: Edges,
}

impl Model for Proposal {
    ghost use Rattle.std.specs.Prelude.{map};
    ghost use Rattle.majority_graph.specs.Graph.{Graph, IsGraph};

    ghost Value = { Graph };

    ghost view = { λ p. record { vertices = p.vertices; edges = map (λ row. row.items) p.edges.items } };

    ghost invariant = { λ p. IsGraph (record { vertices = p.vertices; edges = map (λ row. row.items) p.edges.items }) };
}

impl Proposal {
    ghost use Rattle.majority_graph.specs.Graph.{Graph, IsGraph, IsComplete, IsFirstMissing, NoneMissingWithin, ChangesPair, edge_at, kept_of};
    ghost use Rattle.majority_graph.specs.declared.edge.Edge.TheVariants.{To, From};

    pub(crate) fn of(alloc: Global, vertices: TxList, edges: Edges) -> Proposal
        requires { IsGraph (record { vertices = vertices; edges = map (λ row. row.items) edges.items }) }
        ensures { result ≡ record { vertices = vertices; edges = map (λ row. row.items) edges.items } }
    {
        Proposal {
            alloc,
            vertices,
            edges,
        }
    }

    /// The number of vertices.
    pub fn len(&self) -> u32
        ensures value { result ≡ length self.now.vertices }
        ensures graph { IsGraph self.now }
    {
        self.vertices.as_slice().len() as u32
    }

    /// The vertices in ascending order.
    pub fn as_slice(&self) -> &[Tx]
        ensures value { result.now ≡ self.now.vertices }
        ensures graph { IsGraph self.now }
    {
        self.vertices.as_slice()
    }

    /// The vertex of a number, or None at or past the length.
    pub fn tx(&self, k: u32) -> Option<Tx>
        ensures { result ≡ slice_get self.now.vertices k }
    {
        self.vertices.as_slice().get(k as usize).copied()
    }

    /// The edge between two vertices. Takes no memory.
    pub fn edge(&self, u: u32, v: u32) -> Edge
        requires from { u < length self.now.vertices }
        requires to { v < length self.now.vertices }
        ensures value { result ≡ edge_at self.now u v }
        ensures one_way { edge_at self.now v u ≡ opposite_of result }
    {
        let row = &self.edges[u as usize];
        row[v as usize]
    }

    /// The least pair without an edge, by u and then v with u < v, or None where the proposal is complete. Takes no
    /// memory.
    pub fn first_missing(&self) -> Option<(u32, u32)>
        ensures first { IfSome result (λ pair. IsFirstMissing self.now pair.0 pair.1) }
        ensures complete { IsNone result ↔ IsComplete self.now }
    {
        for u in 0..self.len() {
            if let Some(v) = self.first_missing_from(u) {
                return Some((u, v));
            }
        }
        None
    }

    /// The least greater vertex to which a vertex has no edge.
    fn first_missing_from(&self, u: u32) -> Option<u32>
        requires { u < length self.now.vertices }
        ensures greater { IfSome result (λ v. u < v) }
        ensures inside { IfSome result (λ v. v < length self.now.vertices) }
        ensures missing { IfSome result (λ v. edge_at self.now u v ≡ Missing) }
        ensures within { IfSome result (λ v. NoneMissingWithin self.now u v) }
        ensures none { IfNone result (NoneMissingWithin self.now u (length self.now.vertices)) }
    {
        let row = &self.edges[u as usize];
        if !lacks_edge(row, u as usize + 1) {
            return None;
        }
        for v in u + 1..self.len() {
            if self.edge(u, v) == Edge::Missing {
                return Some(v);
            }
        }
        None
    }

    /// Gives a missing pair its edge: from u to v where `to` is true, else from v to u. Takes no memory.
    pub fn set_edge(&mut self, u: u32, v: u32, to: bool)
        requires from { u < length self.old.vertices }
        requires to { v < length self.old.vertices }
        requires pair { u ≢ v }
        requires missing { edge_at self.old u v ≡ Missing }
        ensures { MatchBool to (ChangesPair self.old self.new u v To) (ChangesPair self.old self.new u v From) }
    {
        let edge = if to { Edge::To } else { Edge::From };
        set_pair(&mut self.edges, u as usize, v as usize, edge);
    }

    /// A separate graph with the same vertices and the same edges.
    pub fn copy(&self) -> Result<Proposal, NoMemory>
        ensures value { IfOk result (λ copy. copy ≡ self.now) }
        ensures graph { IsGraph self.now }
    {
        let vertices = Vec::from_slice(self.alloc, self.vertices.as_slice())?;
        let edges = copied_rows(self.alloc, &self.edges)?;
        Ok(Proposal::of(self.alloc, TxList::of(vertices), edges))
    }

    /// The wanted vertices with the edges that they had.
    pub fn keep(self, wanted: &[bool]) -> Result<Proposal, NoMemory>
        requires { length wanted.now ≡ length self.vertices }
        ensures { IfOk result (λ kept. kept ≡ kept_of wanted.now self) }
    {
        let alloc = self.alloc;
        let vertices = wanted_items(alloc, self.vertices.as_slice(), wanted)?;
        let rows = wanted_rows(alloc, &self.edges, wanted)?;
        Ok(Proposal::of(alloc, TxList::of(vertices), rows))
    }
}

/// Whether an edge is missing from a place on. The loop has no branch, so that many edges are compared at a time.
fn lacks_edge(row: &[Edge], from: usize) -> bool
    ensures { IsFalse result → (v : ℕ) → from ≤ v → v < length row.now → slice_index_or row.now v Missing ≢ Missing }
{
    let mut lacks = false;
    for at in from..row.len() {
        lacks = lacks | (row[at] == Edge::Missing);
    }
    lacks
}

/// Sets both entries of a pair.
fn set_pair(rows: &mut Edges, u: usize, v: usize, edge: Edge)
    requires from { u < length rows.old.items }
    requires to { v < length rows.old.items }
    requires square { All (λ row. length row ≡ length rows.old.items) (map (λ row. row.items) rows.old.items) }
    ensures { map (λ row. row.items) rows.new.items
        ≡ set_at (set_at (map (λ row. row.items) rows.old.items) u v edge) v u (opposite_of edge) }
{
    set_place(rows, u, v, edge);
    set_place(rows, v, u, edge.opposite());
}

fn set_place(rows: &mut Edges, u: usize, v: usize, edge: Edge)
    requires row { u < length rows.old.items }
    requires column { v < length (slice_index_or (map (λ row. row.items) rows.old.items) u []) }
    ensures { map (λ row. row.items) rows.new.items ≡ set_at (map (λ row. row.items) rows.old.items) u v edge }
{
    let row = &mut rows[u];
    row[v] = edge;
}

fn copied_rows(alloc: Global, rows: &[Vec<Edge>]) -> Result<Edges, NoMemory>
    ensures { IfOk result (λ copies. map (λ row. row.items) copies.items ≡ map (λ row. row.items) rows.now) }
{
    let mut copies = Vec::with_capacity(alloc, rows.len())?;
    for row in rows {
        copies.push(Vec::from_slice(alloc, row.as_slice())?)?;
    }
    Ok(copies)
}

/// The items that are wanted, in their order.
pub fn wanted_items<T: Copy>(
    alloc: Global,
    items: &[T],
    wanted: &[bool],
) -> Result<Vec<T>, NoMemory>
    requires { length wanted.now ≡ length items.now }
    ensures { IfOk result (λ kept. kept.items ≡ wanted_of wanted.now items.now) }
{
    let mut kept = Vec::new(alloc);
    for (at, is_wanted) in wanted.iter().enumerate() {
        if *is_wanted {
            kept.push(items[at])?;
        }
    }
    Ok(kept)
}

fn wanted_rows(alloc: Global, rows: &[Vec<Edge>], wanted: &[bool]) -> Result<Edges, NoMemory>
    requires rows { length wanted.now ≡ length rows.now }
    requires columns { All (λ row. length row ≡ length wanted.now) (map (λ row. row.items) rows.now) }
    ensures { IfOk result (λ kept. map (λ row. row.items) kept.items
        ≡ map (wanted_of wanted.now) (wanted_of wanted.now (map (λ row. row.items) rows.now))) }
{
    let mut kept = Vec::new(alloc);
    for (at, is_wanted) in wanted.iter().enumerate() {
        if *is_wanted {
            let row = &rows[at];
            kept.push(wanted_items(alloc, row, wanted)?)?;
        }
    }
    Ok(kept)
}
