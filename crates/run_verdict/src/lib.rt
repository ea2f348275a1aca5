//! What a record of a run shows: whether a seal in it was forged, whether two blocks in it have the same digest, and
//! whether every due transaction was finalised.
//! The layer above may rely on this: each call reads only the record, and asks the checker about its seals. The crate
//! stands on the records of `node_core`, on the messages of `wire_view`, and on the checkers of `seal_kit`. It never
//! runs a node.
#![tactic(auto)]

mod collision;
mod delivered;
mod forgery;
mod judging;
mod laws;
mod part;
mod sealed;

pub use collision::first_collision;
pub use forgery::first_forged;
pub use judging::verdict;
pub use laws::{
    a_run_is_done_with_every_due_transaction, blocks_are_distinguished, collisions_are_found,
    forged_seals_are_found, the_first_collision_is_reported, the_first_forged_seal_is_reported,
    verdicts_show_what_is_so, what_fits_was_sealed,
};
