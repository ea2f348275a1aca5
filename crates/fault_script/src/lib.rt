//! Faults on purpose: links that lose, repeat, garble and delay envelopes, and the deeds by which faulty replicas
//! change their sends.
//! A layer above may rely on this. What a link gives over a run is the Link of its script and of the sends. A faulty
//! replica's sends are those of the table of deeds, in its order, and only its own sealer seals them. If memory runs
//! out, a link is unchanged, and a sealer has the same key and has made no fewer seals. The crate stands on the plans
//! of `plan_text`, on `seal_kit`, and on the writer and the reader of messages. It must not know nodes, turns or runs.
#![tactic(auto)]

mod deeds;
mod forge;
mod laws;
mod link;
mod noise;
mod reverse;
mod sends;
mod stale;
mod two_blocks;

pub use laws::{passes_are_link, prefix_gives_prefix};
pub use link::LinkState;
pub use sends::twist;
