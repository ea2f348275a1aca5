//! Seals: what signs the statements of a replica, what verifies the signatures, and what makes both.
//!
//! What a crate above may rely on:
//!
//! - The seal that a [`Sealer`] makes is a function of the seal's number and the bytes.
//! - Each number is used once. A sealer is spent exactly at its capacity.
//! - The answer of a [`Checker`] is a function too. The sealers and the checker that a [`SealMaker`] makes agree: the
//!   checker accepts what a sealer makes.
//!
//! A [`SealGrower`] is a maker that may make all sealers concurrently, each in its own thread, or the sealer of a single
//! replica: the same kit, and the same seals. So generic code above computes with seals without knowing the scheme.
//! [`TagMaker`] and [`LooseMaker`] are makers for tests and for runs where nobody forges. This crate depends on `seq_base` and on `sha2`.
#![tactic(auto)]

mod checker_maker;
mod digest;
mod grower;
mod height;
mod laws;
mod loose;
mod tag;
mod traits;

pub use checker_maker::CheckerMaker;
pub use digest::keys_digest;
pub use grower::SealGrower;
pub use height::Height;
pub use laws::numbers_seal_once;
pub use loose::{LooseChecker, LooseMaker, LooseSealer};
pub use tag::{TagChecker, TagMaker, TagSealer};
pub use traits::{Checker, Kit, SealFault, SealMaker, Sealer};
