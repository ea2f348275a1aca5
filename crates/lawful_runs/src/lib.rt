//! Runs are lawful, exact ones and runs in rounds, and so the headline holds of their records. No code.
//!
//! A crate above may rely on this. The arrivals of each replica of a plan that was read form an arrival list
//! (`arrivals`). For any plan with its links and deeds, and for any seals, each honest replica's journal is that of a
//! node that was given the journal's events from its opening state. The replica's state is the node's, and its sealer
//! is never exhausted (`honest`). So the record of an exact run is lawful (`lawful`). If it shows no forged seal and no
//! two blocks with the same digest, the headline of `headline_laws` holds of it (`ordered`). An exact run that stalled
//! had all its turns, or nothing was in transit and it had all its ticks (`spent`). A record with the property `Ran` of
//! `round_rules` is lawful too, and no honest sealer of such a run is exhausted (`rounds`). Each law is the contract of
//! a function that only names what it rests on. The definitions are in `specs/`. The crate stands on `replay_run`,
//! `round_rules`, `journal_laws`, `headline_laws`, and on the law of `plan_text`. It must not know threads, shared logs
//! or mailboxes.
#![tactic(auto)]

mod arrivals;
mod honest;
mod lawful;
mod ordered;
mod rounds;
mod spent;

pub use arrivals::plans_have_proper_arrival_lists;
pub use honest::{honest_replicas_run_their_nodes, honest_sealers_are_never_spent};
pub use lawful::plays_are_lawful;
pub use ordered::runs_of_plans_are_ordered;
pub use rounds::{honest_sealers_in_rounds_are_never_spent, runs_in_rounds_are_lawful};
pub use spent::stalled_runs_were_spent;
