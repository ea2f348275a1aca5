ghost use Rattle.std.specs.Prelude.{◌≡◌, ◌≢◌, ◌+◌, ◌-◌, ◌<◌, ◌*◌, ℕ, IfNone, IfSome, OnOk, Some, length, slice_index};
ghost use Rattle.condense.specs.declared.place.Place.TheVariants.{Unseen, Open};
ghost use Rattle.condense.specs.declared.step.Step.TheVariants.{Enter, Follow, Join, Close};
ghost use Rattle.condense.specs.Places.{place_at, level_of, joined, closed};
ghost use Rattle.condense.specs.Moves.{Moves, Fits, Suits};
ghost use Rattle.condense.specs.Stacks.{IsStack};

use crate::place::Place;
use crate::step::Step;
use seq_base::NoMemory;

/// The state of the pass: the place of each vertex, the vertices of the path in the order in which they were entered,
/// the number of groups on the path, and the number of components. The groups of the path follow one another in
/// `path`, the top group last.
#[derive(Drop)]
pub(crate) struct Pass {
    pub(crate) places: Vec<Place>,
    pub(crate) path: Vec<u32>,
    pub(crate) depth: u32,
    pub(crate) count: u32,
}

impl Pass {
    /// Takes a step.
    pub(crate) fn take(&mut self, step: Step) -> Result<(), NoMemory>
        requires fits { Fits self.old step }
        requires suits { Suits self.old.places.items self.old.depth step }
        requires stack { IsStack self.old.places.items self.old.depth self.old.path.items }
        ensures moves { OnOk result (Moves self.old step self.new) }
        ensures stack { OnOk result (IsStack self.new.places.items self.new.depth self.new.path.items) }
    {
        match step {
            Step::Enter(at) => self.enter(at),
            Step::Follow(at) => {
                self.follow(at);
                Ok(())
            }
            Step::Join(level) => {
                self.join_groups(level);
                Ok(())
            }
            Step::Close => {
                self.close_top();
                Ok(())
            }
        }
    }

    fn enter(&mut self, at: u32) -> Result<(), NoMemory>
        requires fits { Fits self.old (Enter at) }
        requires unseen { place_at self.old.places.items at ≡ Unseen }
        requires stack { IsStack self.old.places.items self.old.depth self.old.path.items }
        ensures moves { OnOk result (Moves self.old (Enter at) self.new) }
        ensures stack { OnOk result (IsStack self.new.places.items self.new.depth self.new.path.items) }
    {
        self.path.push(at)?;
        self.places[at as usize] = Place::Open(self.depth);
        self.depth += 1;
        Ok(())
    }

    fn follow(&mut self, at: u32)
        requires fits { Fits self.old (Follow at) }
        requires at_top { (top : ℕ) → self.old.depth ≡ top + 1 → place_at self.old.places.items at ≡ Open top }
        requires stack { IsStack self.old.places.items self.old.depth self.old.path.items }
        ensures moves { Moves self.old (Follow at) self.new }
        ensures stack { IsStack self.new.places.items self.new.depth self.new.path.items }
    {
        self.places[at as usize] = Place::Followed(self.depth - 1);
    }

    fn join_groups(&mut self, level: u32)
        requires fits { Fits self.old (Join level) }
        requires stack { IsStack self.old.places.items self.old.depth self.old.path.items }
        ensures moves { Moves self.old (Join level) self.new }
        ensures stack { IsStack self.new.places.items self.new.depth self.new.path.items }
    {
        join(&mut self.places, level);
        self.depth = level + 1;
    }

    fn close_top(&mut self)
        requires fits { Fits self.old Close }
        requires stack { IsStack self.old.places.items self.old.depth self.old.path.items }
        ensures moves { Moves self.old Close self.new }
        ensures stack { IsStack self.new.places.items self.new.depth self.new.path.items }
    {
        self.depth -= 1;
        close(&mut self.places, &mut self.path, self.depth, self.count);
        self.count += 1;
    }
}

fn join(places: &mut [Place], level: u32)
    ensures { (v : ℕ) → place_at places.new v ≡ joined level (place_at places.old v) }
{
    for place in places.iter_mut() {
        *place = place.joined(level);
    }
}

/// Closes the top group, which is at this level, and takes it off the path.
fn close(places: &mut [Place], path: &mut Vec<u32>, level: u32, number: u32)
    requires { IsStack places.old (level + 1) path.old.items }
    ensures places { (v : ℕ) → place_at places.new v ≡ closed level number (place_at places.old v) }
    ensures stack { IsStack places.new level path.new.items }
{
    while let Some(at) = top_vertex(places, path, level) {
        places[at as usize] = Place::Closed(number);
        path.truncate(path.len() - 1);
    }
}

/// The last vertex of the path, if it is at this level.
fn top_vertex(places: &[Place], path: &[u32], level: u32) -> Option<u32>
    requires { (k : ℕ) → k < length path.now → slice_index path.now k < length places.now }
    ensures some { IfSome result
        (λ at. (0 < length path.now) × (at ≡ slice_index path.now (length path.now - 1)) × (level_of (place_at places.now at) ≡ Some level)) }
    ensures none { IfNone result (0 < length path.now → level_of (place_at places.now (slice_index path.now (length path.now - 1))) ≢ Some level) }
{
    let count = path.len();
    if count == 0 {
        return None;
    }
    let at = path[count - 1];
    let place = places[at as usize];
    if place.is_at(level) { Some(at) } else { None }
}
