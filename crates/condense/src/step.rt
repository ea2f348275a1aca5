ghost use Rattle.std.specs.Prelude.{◌≡◌, ◌≢◌, ◌+◌, ◌<◌, ℕ, IfSome, IfNone, length, slice_index};
ghost use Rattle.majority_graph.specs.Graph.{HasEdge};
ghost use Rattle.condense.specs.declared.place.Place.TheVariants.{Unseen, Open};
ghost use Rattle.condense.specs.Places.{place_at, IsSettled};
ghost use Rattle.condense.specs.Stacks.{IsStack};
ghost use Rattle.condense.specs.Steps.{IsStep, SettledBelow, TopIsPassed};

use crate::place::Place;
use majority_graph::{Edge, Proposal};

/// The next step of the pass.
#[derive(Clone, Copy, PartialEq, Eq)]
pub(crate) enum Step {
    /// An unseen vertex becomes a new group on top.
    Enter(u32),
    /// All edges into this vertex of the top group are settled.
    Follow(u32),
    /// The groups from this level on become one.
    Join(u32),
    /// The top group is a component.
    Close,
}

/// The next step where the path has this many groups, or None at the end. For each vertex, `resume` is where the
/// search for edges into it continues. Takes no memory.
pub(crate) fn next_step(
    graph: &Proposal,
    places: &[Place],
    path: &[u32],
    resume: &mut [u32],
    depth: u32,
) -> Option<Step>
    requires stack { IsStack places.now depth path.now }
    requires each { length places.now ≡ length graph.now.vertices }
    requires starts { length resume.old ≡ length graph.now.vertices }
    requires before { (top : ℕ) → depth ≡ top + 1 → TopIsPassed graph.now places.now resume.old top }
    ensures step { IfSome result (λ step. IsStep graph.now places.now depth step) }
    ensures none { IfNone result ((depth ≡ 0) × ((v : ℕ) → v < length graph.now.vertices → place_at places.now v ≢ Unseen)) }
    ensures passed { (top : ℕ) → depth ≡ top + 1 → TopIsPassed graph.now places.now resume.new top }
    ensures others { (v : ℕ) → ((top : ℕ) → depth ≡ top + 1 → place_at places.now v ≢ Open top) → slice_index resume.new v ≡ slice_index resume.old v }
{
    if depth == 0 {
        let at = first_unseen(places, graph.len())?;
        Some(Step::Enter(at))
    } else {
        Some(top_step(graph, places, path, resume, depth - 1))
    }
}

fn top_step(graph: &Proposal, places: &[Place], path: &[u32], resume: &mut [u32], top: u32) -> Step
    requires stack { IsStack places.now (top + 1) path.now }
    requires each { length places.now ≡ length graph.now.vertices }
    requires starts { length resume.old ≡ length graph.now.vertices }
    requires before { TopIsPassed graph.now places.now resume.old top }
    ensures step { IsStep graph.now places.now (top + 1) result }
    ensures passed { TopIsPassed graph.now places.now resume.new top }
    ensures others { (v : ℕ) → place_at places.now v ≢ Open top → slice_index resume.new v ≡ slice_index resume.old v }
{
    let Some(at) = open_vertex(places, path, top) else {
        return Step::Close;
    };
    let start = resume[at as usize];
    let Some(from) = first_unsettled(graph, places, at, top, start) else {
        return Step::Follow(at);
    };
    resume[at as usize] = from;
    let place = places[from as usize];
    match place {
        Place::Open(level) | Place::Followed(level) => Step::Join(level),
        Place::Unseen | Place::Closed(_) => Step::Enter(from),
    }
}

/// The first vertex that was not seen.
fn first_unseen(places: &[Place], len: u32) -> Option<u32>
    requires { len ≡ length places.now }
    ensures inside { IfSome result (λ at. at < length places.now) }
    ensures found { IfSome result (λ at. place_at places.now at ≡ Unseen) }
    ensures none { IfNone result ((v : ℕ) → v < length places.now → place_at places.now v ≢ Unseen) }
{
    for at in 0..len {
        if places[at as usize] == Place::Unseen {
            return Some(at);
        }
    }
    None
}

/// A vertex of the top group, which is at this level, with edges into it still to be followed.
fn open_vertex(places: &[Place], path: &[u32], top: u32) -> Option<u32>
    requires { IsStack places.now (top + 1) path.now }
    ensures inside { IfSome result (λ at. at < length places.now) }
    ensures found { IfSome result (λ at. place_at places.now at ≡ Open top) }
    ensures none { IfNone result ((v : ℕ) → place_at places.now v ≢ Open top) }
{
    let mut left = path.len();
    while left > 0 {
        let at = path[left - 1];
        let place = places[at as usize];
        if place == Place::Open(top) {
            return Some(at);
        }
        if !place.is_at(top) {
            return None;
        }
        left -= 1;
    }
    None
}

/// The first vertex from `start` on that is not settled and has an edge to `at`.
fn first_unsettled(graph: &Proposal, places: &[Place], at: u32, top: u32, start: u32) -> Option<u32>
    requires from { at < length graph.now.vertices }
    requires each { length places.now ≡ length graph.now.vertices }
    requires before { SettledBelow graph.now places.now top at start }
    ensures inside { IfSome result (λ u. u < length graph.now.vertices) }
    ensures leads { IfSome result (λ u. HasEdge graph.now u at) }
    ensures found { IfSome result (λ u. IsSettled top (place_at places.now u) → ⊥) }
    ensures passed { IfSome result (λ u. SettledBelow graph.now places.now top at u) }
    ensures none { IfNone result (SettledBelow graph.now places.now top at (length graph.now.vertices)) }
{
    for from in start..graph.len() {
        if graph.edge(at, from) == Edge::From && !places[from as usize].is_settled(top) {
            return Some(from);
        }
    }
    None
}
