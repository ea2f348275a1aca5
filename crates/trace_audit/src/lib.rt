//! Audits the record of a run by what the auditor knows of the run: its setting, its views, and the height and the public
//! keys of its replicas.
//!
//! A crate above may rely on this:
//!
//! - [`audit`] reports the first rule that an honest replica breaks or, where none does, what the verdict on the record shows.
//!   It also reports which replicas the trace names as faulty: nothing is claimed of them.
//! - It refuses a trace of other keys, and one of another setting, other views or another height.
//! - If each honest replica obeys, the headline holds of the batches that the trace records (`IsPromised` in
//!   `specs/Promises`).
//!
//! The crate joins `trace_form`, `audit_core` and `audit_laws`, and depends on `hss_seal` for the keys. It must not know how
//! a replica is run: the record may be of any program. Tests are in `tests_box`.
#![tactic(auto)]

mod auditing;
mod expected;
mod fault;
mod laws;

pub use auditing::{Audited, audit};
pub use expected::ExpectedRun;
pub use fault::AuditFault;
pub use laws::passing_traces_are_ordered;
