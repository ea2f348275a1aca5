//! What a session counts, what it carries over, and whether a replica carried over by the rules.
use crate::cases::check_cases;
use std::test::Fail;

/// The marker of a session.
const MARKERS: &str = "\
marker|0||0.0.0
marker|4294967295||0.4294967295.0
";

/// How many batches of a session count, and whether it has ended.
const CUTS: &str = "\
cut|0|1,m0,2|2 yes
cut|0||0 no
cut|0|1,2|2 no
cut|0|m0,m0|1 yes
cut|0|1 m0 2,3|1 yes
cut|1|m0,1,m1|3 yes
cut|1|m0,1|2 no
";

/// What arrived and is in none of the batches.
const CARRIED: &str = "\
carried|1 2 m0 3|1,m0| 2 3
carried|1 2 m0|| 1 2 m0
carried|2 1|1 2|
carried|3 1 2|1| 3 2
carried||1|
";

/// Whether the lists of a replica obey the rules.
const OBEYING: &str = "\
rules|||yes
rules|1 2|1|yes
rules|1 2/|1/|yes
rules|1 2 m0/2 3|1,m0,2/2|yes
rules|1 m0/1 m1 2/2 3|m0,1/1,m1/2|yes
rules|1 m1/|1,m1/|yes
";

/// Something arrives before the replica has ended the session before, also where the list holds another session's marker.
const EARLY: &str = "\
rules|1 2/2|1/2|no
rules|1 m1/2|1,m1/|no
rules|m0//1|m0//|no
";

/// Something arrives that is final in an earlier session.
const REPEATED: &str = "\
rules|1 m0/1|1,m0/|no
rules|1 m0/2 m1/1|1,m0/2,m1/|no
rules|m0/m0|m0/|no
";

/// What is carried over is left out, comes later, or comes in another order.
const LEFT_OUT: &str = "\
rules|1 2 m0/|1,m0/|no
rules|1 2 m0/3 2|1,m0/|no
rules|1 2 3 m0/3 2|1,m0/|no
rules|1 2 m0/3|1,m0,2/3|no
";

/// The same as `CARRIED`, asked of a set.
const LEFT: &str = "\
left|1 2 m0 3|1,m0| 2 3
left|1 2 m0|| 1 2 m0
left|3 1 2|1| 3 2
left||1|
";

/// A batch is added whole, or refused at the first transaction that is final already.
const ADDED: &str = "\
add|1 2||added:
add|3 m0|1,2|added:
add|||added:
add|3 2 1 4|1,2|final 1: 3 4
add|m0|1,m0|final 0:
";

/// What may arrive in a session: also nothing, where nothing is carried over, and more than what is carried over.
const MAY_ARRIVE: &str = "\
arrives|0//1 2 m0||may
arrives|0//||may
arrives|1/1 2 m0 3/2 3 4 m1|1,m0|may
arrives|1//4|1,m0|may
arrives|1/1/|1,m0|may
";

/// What may not. Where several causes hold, the first one counts.
const REFUSED: &str = "\
arrives|1//3 1|1,m0|final 1
arrives|1//m0|1,m0|final 0
arrives|1//4 m2|1,m0|other 1
arrives|0//m1||other 0
arrives|1/1 2/|1,m0|not carried
arrives|1/1 2 3/3 2|1,m0|not carried
arrives|1/2/4 2|1,m0|not carried
arrives|1/2/4 m2 1|1,m0|final 2
arrives|1/2/4 m2|1,m0|other 1
";

#[test]
fn a_marker_names_its_session(rt: HostRuntime) -> Result<(), Fail> {
    check_cases(rt.alloc(), MARKERS)
}

#[test]
fn a_session_counts_up_to_its_marker(rt: HostRuntime) -> Result<(), Fail> {
    check_cases(rt.alloc(), CUTS)
}

#[test]
fn what_does_not_count_is_carried_over_in_its_order(rt: HostRuntime) -> Result<(), Fail> {
    check_cases(rt.alloc(), CARRIED)
}

#[test]
fn replicas_that_obey_the_rules_are_found(rt: HostRuntime) -> Result<(), Fail> {
    check_cases(rt.alloc(), OBEYING)
}

#[test]
fn nothing_may_arrive_before_a_session_has_ended(rt: HostRuntime) -> Result<(), Fail> {
    check_cases(rt.alloc(), EARLY)
}

#[test]
fn nothing_final_may_arrive_again(rt: HostRuntime) -> Result<(), Fail> {
    check_cases(rt.alloc(), REPEATED)
}

#[test]
fn what_is_carried_over_comes_first(rt: HostRuntime) -> Result<(), Fail> {
    check_cases(rt.alloc(), LEFT_OUT)
}

#[test]
fn a_set_keeps_what_is_not_final(rt: HostRuntime) -> Result<(), Fail> {
    check_cases(rt.alloc(), LEFT)
}

#[test]
fn a_batch_is_added_whole_or_not(rt: HostRuntime) -> Result<(), Fail> {
    check_cases(rt.alloc(), ADDED)
}

#[test]
fn what_may_arrive_is_let_arrive(rt: HostRuntime) -> Result<(), Fail> {
    check_cases(rt.alloc(), MAY_ARRIVE)
}

#[test]
fn what_may_not_arrive_is_refused_for_its_first_cause(rt: HostRuntime) -> Result<(), Fail> {
    check_cases(rt.alloc(), REFUSED)
}
