//! The history of a chain of sessions: what is added, what may arrive after it, and what is carried over.
use crate::history::History;
use crate::sessions::{
    themis_history_add, themis_history_carried, themis_history_check, themis_history_free,
};
use crate::{ALREADY_FINAL, CTx, NOT_CARRIED, OK, OTHER_MARKER, SHORT};
use std::alloc::Global;

const FIRST: CTx = CTx {
    client: 1,
    number: 1,
    payload: 0,
};

const SECOND: CTx = CTx {
    client: 2,
    number: 1,
    payload: 0,
};

const THIRD: CTx = CTx {
    client: 3,
    number: 1,
    payload: 0,
};

/// The marker of session 0.
const MARKER: CTx = CTx {
    client: 0,
    number: 0,
    payload: 0,
};

/// The marker of session 2.
const OTHER: CTx = CTx {
    client: 0,
    number: 2,
    payload: 0,
};

/// The status of a batch of session 0, whether it ends it, and the position of what is final already.
fn added(alloc: Global, history: &mut History, batch: &[CTx]) -> (u32, u32, usize) {
    let mut ended = 9;
    let mut at = 9;
    let status = themis_history_add(alloc, history, 0, batch, &mut ended, &mut at);
    (status, ended, at)
}

/// The status of what arrived in session 1, and the position of what is refused.
fn checked(alloc: Global, history: &mut History, before: &[CTx], arrived: &[CTx]) -> (u32, usize) {
    let mut at = 9;
    let status = themis_history_check(alloc, history, 1, before, arrived, &mut at);
    (status, at)
}

/// The status of what is carried over, its size, and the client of the first transaction in a buffer for one.
fn carried(alloc: Global, history: &mut History, arrived: &[CTx]) -> (u32, usize, u32) {
    let mut into = [THIRD];
    let mut count = 9;
    let status = themis_history_carried(alloc, history, arrived, &mut into, &mut count);
    (status, count, into[0].client)
}

/// Session 0 ends with its marker, and a batch with what is final already adds nothing.
fn are_added(alloc: Global, history: &mut History) -> bool {
    added(alloc, history, &[FIRST]) == (OK, 0, 9)
        && added(alloc, history, &[MARKER]) == (OK, 1, 9)
        && added(alloc, history, &[SECOND, FIRST]) == (ALREADY_FINAL, 9, 1)
}

fn are_checked(alloc: Global, history: &mut History) -> bool {
    let before = [FIRST, SECOND, MARKER];
    checked(alloc, history, &before, &[SECOND, THIRD]) == (OK, 9)
        && checked(alloc, history, &[], &[]) == (OK, 9)
        && checked(alloc, history, &before, &[OTHER, MARKER]) == (ALREADY_FINAL, 1)
        && checked(alloc, history, &before, &[THIRD, OTHER]) == (OTHER_MARKER, 1)
        && checked(alloc, history, &before, &[THIRD, SECOND]) == (NOT_CARRIED, 9)
}

fn are_carried(alloc: Global, history: &mut History) -> bool {
    carried(alloc, history, &[FIRST, SECOND, MARKER]) == (OK, 1, 2)
        && carried(alloc, history, &[FIRST]) == (OK, 0, 3)
        && carried(alloc, history, &[SECOND, THIRD]) == (SHORT, 2, 3)
}

/// A vacant handle is an empty history, before the first call and once it is freed.
fn is_empty(alloc: Global, history: &mut History) -> bool {
    checked(alloc, history, &[FIRST], &[FIRST]) == (OK, 9)
}

#[test]
fn a_history_is_what_was_added(rt: HostRuntime) {
    let alloc = rt.alloc();
    let mut history = History::vacant(alloc);
    let empty = is_empty(alloc, &mut history);
    let answers = are_added(alloc, &mut history)
        && are_checked(alloc, &mut history)
        && are_carried(alloc, &mut history);
    themis_history_free(alloc, &mut history);
    let freed = is_empty(alloc, &mut history);
    history.end();
    assert!(rt; empty && answers && freed);
}
