//! Generated plans: five replicas, each of which receives the same transactions in its own order.
//!
//! What a crate above may rely on: the text of a generated plan is a function of its seed and its count alone. The
//! crate depends on `seq_base` and on the random words of `rand_chacha`, and must not know how plans are read.
#![tactic(auto)]

mod order;
mod text;

pub use text::make_plan;
