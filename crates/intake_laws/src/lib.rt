//! From receipts to final lists: who is received first at every honest replica arrives first, and is in no final list
//! later.
//!
//! A crate above may rely on this. The logs of the replicas' desks show when each received what, and what it had heard by
//! then (`Past`). Let every honest replica but a few late ones have received b after it had heard the stamp of each honest
//! replica for a (`AreInOrder`). Then a arrives before b at each honest replica, and enough replicas received a before b in
//! the sense of batch order fairness, for every γ (`receipts`). With the premises of the headline no honest list holds b
//! before a (`final_lists`). Below that: what a key and an adopted clock are, whatever at most f liars say (`keys`), and
//! what holds of the calls of one desk (`lifetimes`). Small logs meet the premises, and others show that they are needed
//! (`examples`). Each law is the contract of a function that only names what it rests on. The definitions are in `specs/`.
//! The crate depends on `intake`, `chain_laws` and `headline_laws`, and must not know how a desk is stored, nor texts.
#![tactic(auto)]

mod examples;
mod final_lists;
mod keys;
mod lifetimes;
mod receipts;

pub use examples::{few_late_and_none_given_is_needed, premises_are_met};
pub use final_lists::receipts_decide;
pub use keys::{
    adopted_clocks_are_honest, adopted_clocks_are_reached, keys_are_reached,
    keys_do_not_turn_round, keys_lie_among_honest_stamps, stamps_have_a_middle,
};
pub use lifetimes::lifetimes_keep_time;
pub use receipts::{first_lifetimes_need_less, receipts_decide_arrivals};
