//! A service whose first session ends: runs of nodes meet the premises of the laws over sessions.
//!
//! The crate above may rely on nothing here: the law shows that the premises of `session_laws` are not empty. It stands on
//! `progress_laws`, which says that the run of a clean plan is done, and must not know how a text of a plan is read.
#![tactic(auto)]

mod witness;

pub use witness::a_service_may_end_sessions;
