//! The stored blocks of later views, by their positions.
ghost use Rattle.std.specs.Prelude.{◌≡◌, length, nat_lt, slice_get, false};
ghost use Rattle.std.specs.List.{filter};
ghost use Rattle.std.specs.Option.{option_map_or};
ghost use Rattle.block_store.specs.Store.{shown};
ghost use Rattle.node_core.specs.Above.{blocks_above};

use crate::state::State;
use block_store::BlockStore;
use seq_base::Block;

impl State {
    /// How many stored blocks have a view above this one.
    pub(crate) fn count_above(&self, above: u32) -> usize
        ensures { result ≡ length (blocks_above self.now above) }
    {
        count_above(self.blocks.store(), above)
    }

    /// The block at a position among the stored blocks of views above this one, in the order in which they were stored.
    pub(crate) fn block_above(&self, above: u32, at: usize) -> Option<&Block>
        ensures { shown result ≡ slice_get (blocks_above self.now above) at }
    {
        block_above(self.blocks.store(), above, at)
    }
}

fn count_above(store: &BlockStore, above: u32) -> usize
    ensures { result ≡ length (filter (λ b. nat_lt above b.view) store.now) }
{
    let mut count = 0;
    for place in 0..store.len() {
        if is_above(store, place, above) {
            count += 1;
        }
    }
    count
}

fn block_above(store: &BlockStore, above: u32, at: usize) -> Option<&Block>
    ensures { shown result ≡ slice_get (filter (λ b. nat_lt above b.view) store.now) at }
{
    let mut left = at;
    for place in 0..store.len() {
        if is_above(store, place, above) {
            if left == 0 {
                return store.at(place);
            }
            left -= 1;
        }
    }
    None
}

/// Whether there is a block at a place of the store, and its view is above this one.
fn is_above(store: &BlockStore, place: usize, above: u32) -> bool
    ensures { result ≡ option_map_or (λ b. nat_lt above b.view) (slice_get store.now place) false }
{
    match store.at(place) {
        Some(block) => block.view > above,
        None => false,
    }
}
