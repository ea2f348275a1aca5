//! Seals by two-level signatures (HSS) of RFC 8554: a top tree of height 5 signs the public keys of up to 32 lower
//! trees, whose leaves sign messages. A key grows from 48 random bytes ([`AnySealer::from_bytes`]), or is drawn from
//! one seed for all replicas by [`LmsMaker`], which makes sealers with one tree or with two levels by the height.
//! A crate above may rely on this. [`hss_verify`] returns exactly whether a seal fits, for any bytes, and allocates
//! nothing. An [`HssSealer`] gives its seal with a number by the lower tree and the leaf of that number, each once. The
//! seals of an [`LmsMaker`]'s sealers fit under its checker. A sealer keeps the lower tree in use, and the next one grows
//! ahead of its use, by a leaf or two with each seal. What an [`HssChecker`] learns from seals changes none of its
//! answers. The crate depends on `lms_seal`, `seal_kit`, `seq_base` and `sha2`.
#![tactic(auto)]

mod any;
mod checker;
mod heads;
mod laws;
mod lower;
mod maker;
mod next_tree;
mod sealer;
mod seeds;
mod verify;

pub use any::{AnyChecker, AnySealer};
pub use checker::HssChecker;
pub use laws::{grown_seals_fit, seals_fit, trees_and_leaves_are_numbers};
pub use maker::LmsMaker;
pub use sealer::HssSealer;
pub use seeds::HssSeeds;
pub use verify::hss_verify;
