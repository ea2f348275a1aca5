//! What an audit implies for the run that a trace records.
//!
//! A crate above may rely on this. If bytes spell a trace of which no place is unlawful, the run that it records is
//! lawful, and if its verdict is Done or Stalled, the headline holds of its batches (`traces`). A trace leaves out what
//! turns sent, and the journals, heads and batches of faulty replicas. Audit and verdict read nothing of this: the bare
//! record, without it, gets the same answers, so a lawful run passes the audit of its trace (`bare`). The premises can
//! be met (`examples`). Each law is the contract of a function that only names what it rests on. The definitions are in
//! `specs/`. The crate joins `trace_form`, `audit_core` and `headline_laws`, on which it stands, and must not know how a
//! run came about.
#![tactic(auto)]

mod bare;
mod examples;
mod traces;

pub use bare::{bare_records_are_audited_alike, bare_records_have_one_verdict, lawful_runs_pass};
pub use examples::{
    a_passing_trace_may_hold_arrivals, a_verdict_does_not_see_lists_without_chains,
};
pub use traces::{
    audited_runs_are_ordered, audited_traces_are_lawful, traces_hold_readable_events,
};
