//! Sets of replicas, and what holds for two sets of n-f out of n.
//!
//! A layer above sees a set as the ascending list of its members, and may rely on the laws: two quorums share more
//! replicas than may be faulty, so they share an honest one. No call takes memory. The crate depends on `seq_base`.
#![tactic(auto)]

mod laws;
mod replica_set;

pub use laws::{
    ascending_replicas_are_distinct, distinct_replicas_are_counted, only_members_are_counted,
    quorums_have_honest_replicas, quorums_meet, quorums_share_an_honest_replica,
    valid_settings_have_large_meetings,
};
pub use replica_set::ReplicaSet;
