//! The batches of a complete proposal, in the one order that its edges give (FairFinalize of Themis, CCS 2023).
//!
//! What a crate above may rely on:
//!
//! - [`batches`] returns the strong components of a complete proposal, earliest first.
//! - An incomplete proposal is refused with its least missing pair.
//!
//! The crate depends on `majority_graph` and `condense`, and on the definitions of `batch_laws`. It must not know
//! classes, chains or texts. Its tests are in `tests_order`.
#![tactic(auto)]

mod finalizing;

pub use finalizing::{FinalFault, batches};
