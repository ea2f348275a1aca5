//! Sessions one after another: what holds of the joined history, from what holds of each session.
//!
//! A crate above may rely on this. The premises (`specs/Service`) are those of the headline for each session, and four
//! rules on histories and arrival lists; each says what would fail without it. Then over all sessions honest histories
//! are prefixes of one another, no transaction is in a history twice, and where at least γn replicas received a before
//! b, a is in the history no later than b (`specs/Claims`, `histories`). Each session may have its own seals, faulty
//! replicas and setting, and a replica may start a session from a history that it took from another (`specs/Sessions`).
//! Where none does, and the same replicas are faulty in all sessions, the rules of `session_rules` are enough (`own`).
//! Where an auditor has checked one session after another, what it checked is enough (`audited`).
//! `examples` shows that these can be met and that none can be left out, and `session` what holds of one session up to
//! its marker. `closing` says where a session may be closed whose views ran out before its marker was final. Each law is
//! the contract of a function that only names what it rests on. The crate stands on `headline_laws` and `session_rules`,
//! and must not know how a record came about.
#![tactic(auto)]

mod audited;
mod closing;
mod examples;
mod histories;
mod own;
mod session;

pub use audited::{audited_services_serve, sets_know_histories};
pub use closing::closing_blocks_extend_commits;
pub use examples::{
    a_replica_may_carry_over, fairness_needs_carrying, histories_need_ended_sessions,
    histories_need_new_receipts, histories_need_receipts_in_turn,
};
pub use histories::{
    histories_agree, histories_are_fair, histories_hold_once, nothing_earlier_is_left,
};
pub use own::own_histories_serve;
pub use session::{cuts_agree, cuts_grow};
