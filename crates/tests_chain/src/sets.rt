//! Sets of replicas.

use count_set::ReplicaSet;

/// Whether each added replica is in the set and counted once.
fn are_counted() -> bool {
    let mut set = ReplicaSet::empty();
    set.size() == 0
        && set.add(4)
        && set.add(0)
        && set.add(31)
        && !set.add(4)
        && set.size() == 3
        && set.has(31)
        && !set.has(3)
        && !set.has(32)
}

/// Whether two sets that share only 4 have it as their intersection.
fn meet() -> bool {
    let mut set = ReplicaSet::empty();
    let mut other = ReplicaSet::empty();
    for (replica, of_other) in [(4, 4), (0, 5), (31, 5)] {
        set.add(replica);
        other.add(of_other);
    }
    let both = set.meet(&other);
    both.size() == 1 && both.has(4)
}

#[test]
fn sets_count_and_meet(rt: HostRuntime) {
    assert!(rt; are_counted());
    assert!(rt; meet());
}
