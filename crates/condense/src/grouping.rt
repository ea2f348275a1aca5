ghost use Rattle.std.specs.Prelude.{◌≡◌, ◌<◌, IfOk, length, map, slice_index};
ghost use Rattle.condense.specs.Groups.{AreComponents};
ghost use Rattle.condense.specs.Places.{number_of};

use crate::pass::Pass;
use crate::place::Place;
use crate::step::next_step;
use majority_graph::Proposal;
use seq_base::NoMemory;
use std::alloc::Global;
use std::marker::Model;

/// The component of each vertex.
#[derive(Drop)]
pub struct Grouping {
    numbers: Vec<u32>,
    count: u32,
}

impl Model for Grouping {
    ghost use Rattle.condense.specs.Groups.{Groups};

    ghost Value = { Groups };

    ghost view = { λ g. record { numbers = g.numbers.items; count = g.count } };
}

impl Grouping {
    /// The number of components.
    pub fn count(&self) -> u32
        ensures { result ≡ self.now.count }
    {
        self.count
    }

    /// The number of each vertex's component in turn.
    pub fn as_slice(&self) -> &[u32]
        ensures { result.now ≡ self.now.numbers }
    {
        self.numbers.as_slice()
    }

    /// The number of a vertex's component. Takes no memory.
    pub fn of(&self, vertex: u32) -> u32
        requires { vertex < length self.now.numbers }
        ensures { result ≡ slice_index self.now.numbers vertex }
    {
        self.numbers[vertex as usize]
    }
}

/// Two vertices have the same number exactly where walks lead both ways, and numbers never decrease along edges.
pub fn components(alloc: Global, graph: &Proposal) -> Result<Grouping, NoMemory>
    ensures { IfOk result (λ groups. AreComponents graph.now groups) }
{
    let mut pass = Pass {
        places: vec![in alloc; Place::Unseen; graph.len() as usize]?,
        path: Vec::new(alloc),
        depth: 0,
        count: 0,
    };
    let mut resume = vec![in alloc; 0u32; graph.len() as usize]?;
    while let Some(step) = next_step(graph, &pass.places, &pass.path, &mut resume, pass.depth) {
        pass.take(step)?;
    }
    Ok(Grouping {
        numbers: numbers_of(alloc, &pass.places)?,
        count: pass.count,
    })
}

fn numbers_of(alloc: Global, places: &[Place]) -> Result<Vec<u32>, NoMemory>
    ensures { IfOk result (λ numbers. numbers.items ≡ map number_of places.now) }
{
    let mut numbers = Vec::with_capacity(alloc, places.len())?;
    for place in places {
        numbers.push(place.number())?;
    }
    Ok(numbers)
}
