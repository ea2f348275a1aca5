//! Progress of clean replays: laws on the run of a plan.
//!
//! A crate above may rely on this. In a clean plan no replica is faulty, no link loses anything, and the same few
//! transactions arrive everywhere at the start. The run of such a plan finalises them all, after one tick and at most
//! 10n turns, and no seal in it is forged (`progress`). So every valid setting has a run that meets the premises of the
//! headline and finalises transactions (`plain`). Each law is the contract of a function that only names what it rests
//! on. The definitions are in `specs/`. The crate stands on `replay_run`, `run_verdict`, `headline_laws` and `lawful_runs`,
//! and must not know texts that are printed or makers of seals.
#![tactic(auto)]

mod plain;
mod progress;

pub use plain::every_setting_has_a_run_in_order;
pub use progress::{clean_runs_are_done, runs_of_clean_plans_are_done};
