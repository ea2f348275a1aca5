//! Each export on its path, and each status that is reachable here once. A crate can't depend on a static library, so these
//! tests stand in it. HALTED and NO_MEMORY need a heap that refuses: `bindings/c/oom.c` has them.
mod audits;
mod bench;
mod copies;
mod histories;
mod openings;
mod receipts;
mod runs;
mod vacant;
mod verifiers;
