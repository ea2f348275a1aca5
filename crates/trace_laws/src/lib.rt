//! From the record of a run to its trace. No code.
//!
//! A crate above may rely on this. The record of an exact run of a plan fits the form of a trace
//! ([`exact_runs_fit_the_form`]), and so does that of a run in rounds ([`runs_in_rounds_fit_the_form`]). So if the run
//! is lawful, the text that is written for it spells its trace, if it has fewer than 2^32 bytes
//! ([`lawful_runs_are_spelled`]): it is read as the bare record. The definitions are in `specs/`. The crate joins the
//! laws on runs and the form of traces, on which it stands, and must not know audits or statuses.
#![tactic(auto)]

mod exact;
mod in_rounds;
mod spelled;

pub use exact::exact_runs_fit_the_form;
pub use in_rounds::runs_in_rounds_fit_the_form;
pub use spelled::lawful_runs_are_spelled;
