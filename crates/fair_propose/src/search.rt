ghost use Rattle.std.specs.Prelude.{◌≡◌, ◌≢◌, ◌<◌, ◌↔◌, ℕ, IfOk, IsFalse, length, map, slice_index_or, true, false};
ghost use Rattle.majority_graph.specs.Graph.{IsGraph, edge_at};
ghost use Rattle.walks.specs.declared.mark.Mark.TheVariants.{Unseen, Done};
ghost use Rattle.walks.specs.Marks.{is_followed, opened};
ghost use Rattle.fair_propose.specs.Backward.{LeadsToGoal, begun};

use majority_graph::{Edge, Ranking};
use seq_base::NoMemory;
use std::alloc::Global;
use walks::{Mark, next_open};

/// For each vertex, whether a walk leads from it to a goal. A pair is weighed only if one of its vertices was reached
/// and the other was not.
pub(crate) fn leading_to(
    alloc: Global,
    ranking: &Ranking,
    goals: &[bool],
) -> Result<Vec<bool>, NoMemory>
    requires graph { IsGraph ranking.now }
    requires each { length goals.now ≡ length ranking.now.vertices }
    ensures each { IfOk result (λ leading. length leading.items ≡ length ranking.now.vertices) }
    ensures leading { IfOk result (λ leading. (u : ℕ) → (slice_index_or leading.items u false ≡ true) ↔ LeadsToGoal ranking.now goals.now u) }
{
    let marks = search(alloc, ranking, goals)?;
    let leading = done_among(alloc, &marks)?;
    Ok(leading)
}

fn done_among(alloc: Global, marks: &[Mark]) -> Result<Vec<bool>, NoMemory>
    ensures { IfOk result (λ done. done.items ≡ map is_followed marks.now) }
{
    let mut done = Vec::with_capacity(alloc, marks.len())?;
    for mark in marks {
        done.push(mark.is_followed())?;
    }
    Ok(done)
}

/// Follows edges backwards from the goals until no vertex is open. The search for the next open vertex starts at the
/// last one.
fn search(alloc: Global, ranking: &Ranking, goals: &[bool]) -> Result<Vec<Mark>, NoMemory>
    requires graph { IsGraph ranking.now }
    requires each { length goals.now ≡ length ranking.now.vertices }
    ensures each { IfOk result (λ marks. length marks.items ≡ length ranking.now.vertices) }
    ensures done { IfOk result (λ marks. (u : ℕ) → (slice_index_or marks.items u Unseen ≡ Done) ↔ LeadsToGoal ranking.now goals.now u) }
{
    let mut marks = marks_of(alloc, goals)?;
    let mut start = 0;
    while let Some(at) = next_open(&marks, start) {
        marks[at] = Mark::Done;
        follow_back(ranking, at as u32, &mut marks);
        start = at;
    }
    Ok(marks)
}

fn marks_of(alloc: Global, goals: &[bool]) -> Result<Vec<Mark>, NoMemory>
    ensures { IfOk result (λ marks. marks.items ≡ map begun goals.now) }
{
    let mut marks = Vec::with_capacity(alloc, goals.len())?;
    for is_goal in goals {
        marks.push(if *is_goal { Mark::Open } else { Mark::Unseen })?;
    }
    Ok(marks)
}

/// Opens each vertex that was not seen and from which an edge leads here.
fn follow_back(ranking: &Ranking, at: u32, marks: &mut [Mark])
    requires graph { IsGraph ranking.now }
    requires to { at < length ranking.now.vertices }
    requires each { length marks.old ≡ length ranking.now.vertices }
    ensures { (v : ℕ) → slice_index_or marks.new v Unseen ≡ opened (edge_at ranking.now v at) (slice_index_or marks.old v Unseen) }
{
    if has_unseen(marks) {
        open_before(ranking, at, marks);
    }
}

/// Whether a vertex was not seen. The loop has no branch, so that many marks are compared at a time.
fn has_unseen(marks: &[Mark]) -> bool
    ensures { IsFalse result → (v : ℕ) → v < length marks.now → slice_index_or marks.now v Unseen ≢ Unseen }
{
    let mut unseen = false;
    for mark in marks {
        unseen = unseen | (*mark == Mark::Unseen);
    }
    unseen
}

/// The same, weighing each pair of a vertex that was not seen.
fn open_before(ranking: &Ranking, at: u32, marks: &mut [Mark])
    requires graph { IsGraph ranking.now }
    requires to { at < length ranking.now.vertices }
    requires each { length marks.old ≡ length ranking.now.vertices }
    ensures { (v : ℕ) → slice_index_or marks.new v Unseen ≡ opened (edge_at ranking.now v at) (slice_index_or marks.old v Unseen) }
{
    for from in 0..ranking.len() {
        let mark = marks[from as usize];
        if mark == Mark::Unseen && ranking.edge(from, at) == Edge::To {
            marks[from as usize] = Mark::Open;
        }
    }
}
