//! The definition of the record of a run in rounds, and laws on the journals of its replicas. No code.
//!
//! A driver above may rely on this. `Ran` (`specs/Ran`) defines the record of a run in rounds, by ten clauses over the
//! record alone. They name no order between the turns of different replicas. In a round every journal gains at most one
//! tick and 32 deliveries. Each round preserves what held before ([`rounds_keep_what_was_so`]). What the rounds
//! preserve implies what `Ran` requires of the ticks, and of what the nodes know at each cut
//! ([`rounds_are_what_a_record_says`]). The crate stands on replicas as defined in `replica_seat`, and must not know
//! threads, shared logs or mailboxes.
#![tactic(auto)]

mod laws;

pub use laws::{rounds_are_what_a_record_says, rounds_keep_what_was_so};
