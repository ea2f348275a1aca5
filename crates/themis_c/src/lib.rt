//! A replica for C, and so for C++, Rust, Go, Java and Python: an opaque handle, and one export for each call.
//!
//! A call returns a status. Where it is not [`OK`], the replica is as it was, except after [`HALTED`] and [`AGAIN`], and after
//! [`NO_MEMORY`] of `themis_accepted` and `themis_arrive`, which may have received some transactions of blocks. A call on a
//! vacant handle returns [`VACANT`]. Which statuses a call may return, and why, is in `specs/Answers`, and for an opening in
//! `specs/Openings`. The clauses are those of `replica_box`; `bindings/c/themis.h` lists what a host promises. A second handle,
//! [`History`], is for the audit of a chain of sessions (`sessions`, `specs/Histories`); its clauses are those of
//! `session_rules`. Where it is vacant, nothing is final. A third one, [`VerifierHandle`], checks seals on another thread
//! (`verifying`, `specs/Verifiers`). The proofs of the handles and of `Loose` own the pointers; all exports are safe code over
//! them. A crate can't depend on a static library, so the tests of the exports stand here (`tests`); those of the calls below
//! are in `tests_box`, and hosts in C in `bindings/c`.
#![tactic(auto)]

mod acting;
mod arriving;
mod auditing;
mod foreseeing;
mod handle;
mod history;
mod loose;
mod opening;
mod outcome;
mod preparing;
mod received;
mod receiving;
mod sessions;
mod state;
#[cfg(test)]
mod tests;
mod verifier_handle;
mod verifying;

pub use auditing::{BAD_TRACE, CFinding, COLLIDED, FORGED, OTHER_KEYS, OTHER_RUN, UNLAWFUL};
pub use handle::Handle;
pub use history::History;
pub use sessions::{ALREADY_FINAL, NOT_CARRIED, OTHER_MARKER};
pub use verifier_handle::VerifierHandle;
pub use verifying::OTHER_VERIFIER;

/// The call did what it is for.
pub const OK: u32 = 0;

/// The handle holds no replica.
pub const VACANT: u32 = 1;

/// An allocation failed. Nothing was changed, and the call may be made again.
pub const NO_MEMORY: u32 = 2;

/// The setting is not valid.
pub const BAD_SETTING: u32 = 3;

/// No height has this number.
pub const BAD_HEIGHT: u32 = 4;

/// The replica's number is not below the number of replicas.
pub const BAD_NUMBER: u32 = 5;

/// The key has fewer than five seals for each view.
pub const FEW_SEALS: u32 = 6;

/// There is not one public key for each replica.
pub const KEY_COUNT: u32 = 7;

/// The secret's public key is not the one at the replica's number.
pub const WRONG_SECRET: u32 = 8;

/// The log has a corrupt record.
pub const CORRUPT_LOG: u32 = 9;

/// The event does not fit a record.
pub const LONG: u32 = 10;

/// No event is prepared.
pub const UNREADY: u32 = 11;

/// The replica ran out of memory in a turn. Reopen it from its log.
pub const HALTED: u32 = 12;

/// There is none at this position.
pub const NONE: u32 = 13;

/// The buffer is too small.
pub const SHORT: u32 = 14;

/// The log does not start with a header.
pub const NO_HEADER: u32 = 15;

/// The log starts with the header of another owner.
pub const OTHER_LOG: u32 = 16;

/// The event has no record, and would now change the replica. It is no longer prepared: prepare it again.
pub const AGAIN: u32 = 17;

/// The role of a replica in a run: the setting with n replicas, at most f of them faulty, and fairness p/q; the last view; the
/// replica's number; and the height of all keys (5, 10, 505 or 510).
#[repr(C)]
#[derive(Clone, Copy)]
pub struct CRole {
    pub n: u32,
    pub f: u32,
    pub p: u32,
    pub q: u32,
    pub views: u32,
    pub me: u32,
    pub height: u32,
}

/// The run that an auditor expects: the setting with n replicas, at most f of them faulty, and fairness p/q; the last view;
/// and the height of all keys (5, 10, 505 or 510).
#[repr(C)]
#[derive(Clone, Copy)]
pub struct CRun {
    pub n: u32,
    pub f: u32,
    pub p: u32,
    pub q: u32,
    pub views: u32,
    pub height: u32,
}

/// A transaction.
#[repr(C)]
#[derive(Clone, Copy)]
pub struct CTx {
    pub client: u32,
    pub number: u32,
    pub payload: u64,
}

/// A transaction that a replica received, with the stamp of its clock.
#[repr(C)]
#[derive(Clone, Copy)]
pub struct CReceipt {
    pub tx: CTx,
    pub stamp: u64,
}
