ghost use Rattle.std.specs.Prelude.{◌≡◌, ◌∷◌, [], ◌++◌, ◌||◌, map, IfOk};
ghost use Rattle.std.specs.List.{list_any};
ghost use Rattle.seq_base.specs.declared.tx.Tx.{Tx};
ghost use Rattle.chain_state.specs.Keeping.{is_among};
ghost use Rattle.chain_state.specs.Places.{still_pending, put_all, AreWithin};
ghost use Rattle.chain_state.specs.Shown.{shown};
ghost use Rattle.chain_state.specs.Standings.{stage_waits};
ghost use Rattle.chain_state.specs.Stepping.{placed};

use crate::standing::Standing;
use seq_base::{NoMemory, Tx};
use std::alloc::Global;
use std::collections::HashSet;

/// The proposal at an index, after a block.
#[derive(Drop)]
pub(crate) struct Stepped {
    pub(crate) place: usize,
    pub(crate) standing: Standing,
}

/// The indices of those that are still pending, and the given index where the block's own is pending.
pub(crate) fn pending_places(
    alloc: Global,
    stepped: &[Stepped],
    place: usize,
    own: &Standing,
) -> Result<Vec<usize>, NoMemory>
    ensures { IfOk result (λ places. places.items ≡ still_pending (map placed stepped.now ++ (place, shown own.now) ∷ [])) }
{
    let mut places = Vec::with_capacity(alloc, stepped.len() + 1)?;
    for step in stepped {
        if step.standing.is_pending() {
            places.push(step.place)?;
        }
    }
    if own.is_pending() {
        places.push(place)?;
    }
    Ok(places)
}

/// The transactions that wait, including those of the block's own proposal.
pub(crate) fn waiting_set(
    alloc: Global,
    stepped: &[Stepped],
    own: &Standing,
) -> Result<HashSet<Tx>, NoMemory>
    ensures { IfOk result
        (λ set. (t : Tx) → is_among set.keys t ≡ (list_any (λ step. stage_waits t step.1) (map placed stepped.now) || stage_waits t (shown own.now))) }
{
    let mut waiting = HashSet::new(alloc);
    for step in stepped {
        step.standing.insert_waiting(&mut waiting)?;
    }
    own.insert_waiting(&mut waiting)?;
    Ok(waiting)
}

/// Stores each at its index. Takes no memory.
pub(crate) fn put_back(proposals: &mut [Standing], mut stepped: Vec<Stepped>)
    requires { AreWithin (map placed stepped.items) (map shown proposals.old) }
    ensures { map shown proposals.new ≡ put_all (map placed stepped.items) (map shown proposals.old) }
{
    while let Some(Stepped { place, standing }) = stepped.pop() {
        proposals[place] = standing;
    }
}
