//! Seals by Leighton-Micali signatures (LMS) of RFC 8554: a tree of one-time keys, with heights 5 and 10.
//! A crate above may rely on this. [`lms_verify`] returns exactly whether a signature fits, for any bytes, and
//! allocates nothing. A signature of a tree with one of its leaves fits under the tree's public key
//! ([`signatures_fit`]). An [`LmsSealer`] gives its seal with a number by the leaf of that number, each once. An
//! [`LmsChecker`] checks by the key of the replica. A tree is grown once and its nodes are kept. It grows in one call
//! ([`LmsKey::new`]), or leaf by leaf ([`GrowingKey`]). This crate stands on seal_kit, lm_ots and `sha2`.
#![tactic(auto)]

mod build;
mod bytes;
mod checker;
mod draws;
mod growing;
mod height;
mod key;
mod laws;
mod sealer;
mod sign;
mod tree;
mod verify;

pub use checker::LmsChecker;
pub use draws::{drawn_id, drawn_key, drawn_seed, prefix};
pub use growing::GrowingKey;
pub use height::levels;
pub use key::LmsKey;
pub use laws::{drawn_keys_are_keys, leaves_are_numbers, lengths_are_fixed, signatures_fit};
pub use sealer::LmsSealer;
pub use verify::lms_verify;
