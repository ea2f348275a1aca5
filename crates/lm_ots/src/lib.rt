//! One-time signatures of Leighton and Micali as in RFC 8554: SHA-256, w = 4, 67 chains of 15 steps.
//!
//! What a crate above may rely on: each call returns exactly what its definition says, and the candidate computed
//! from the result of [`ots_sign`] is [`ots_public`]. No call takes memory.
#![tactic(auto)]

mod chains;
mod digits;
mod key;
mod ots;

pub use chains::{begun, chain};
pub use key::OtsKey;
pub use ots::{OtsSignature, ots_candidate, ots_public, ots_sign};
