//! Keys, and why a replica is not opened.
use super::bench::{Bench, KEY, role};
use crate::opening::themis_public_key;
use crate::{
    BAD_HEIGHT, BAD_NUMBER, BAD_SETTING, CORRUPT_LOG, FEW_SEALS, KEY_COUNT, NO_HEADER, OK,
    OTHER_LOG, WRONG_SECRET,
};
use std::alloc::Global;
use std::test::Fail;

/// The status of the public key of a height, and whether it is the expected one.
fn public_key(alloc: Global, height: u32) -> (u32, bool) {
    let mut public = [0u8; 60];
    let status = themis_public_key(alloc, height, &[7; 48], &mut public);
    (status, public.as_slice() == KEY.as_slice())
}

#[test]
fn a_public_key_is_the_one_of_its_secret(rt: HostRuntime) {
    assert!(rt; public_key(rt.alloc(), 5) == (OK, true));
    assert!(rt; public_key(rt.alloc(), 6) == (BAD_HEIGHT, false));
}

/// The header of a run of other views.
fn other_header(alloc: Global) -> Result<Vec<u8>, Fail> {
    let mut bench = Bench::new(alloc);
    if bench.open(&role(1, 3, 0, 5), 7, &[KEY], &[]) != OK {
        return Err(Fail::new("not opened"));
    }
    bench.header()
}

/// Each refusal, where all causes that come after it hold too.
fn refuses_in_order(alloc: Global, other: &[u8]) -> bool {
    let mut bench = Bench::new(alloc);
    let garbage = [0u8; 100];
    bench.open(&role(0, 7, 1, 6), 8, &[], &garbage) == BAD_SETTING
        && bench.open(&role(1, 7, 1, 6), 8, &[], &garbage) == BAD_HEIGHT
        && bench.open(&role(1, 7, 1, 5), 8, &[], &garbage) == BAD_NUMBER
        && bench.open(&role(1, 7, 0, 5), 8, &[], &garbage) == FEW_SEALS
        && bench.open(&role(1, 4, 0, 5), 8, &[], &garbage) == KEY_COUNT
        && bench.open(&role(1, 4, 0, 5), 8, &[KEY], &garbage) == WRONG_SECRET
        && bench.open(&role(1, 4, 0, 5), 7, &[KEY], &garbage) == NO_HEADER
        && bench.open(&role(1, 4, 0, 5), 7, &[KEY], other) == OTHER_LOG
}

#[test]
fn an_opening_is_refused_for_its_first_cause(rt: HostRuntime) -> Result<(), Fail> {
    let other = other_header(rt.alloc())?;
    assert!(rt; refuses_in_order(rt.alloc(), other.as_slice()));
    Ok(())
}

/// The status where bytes follow the header of the own log, and how many bytes of the log are used then, or the place of a
/// corrupt record. Both are counted from the end of the header.
fn opened_over(alloc: Global, records: &[u8]) -> Result<(u32, usize), Fail> {
    let mut bench = Bench::new(alloc);
    if bench.open_one(&[]) != OK || bench.size != 0 {
        return Err(Fail::new("not opened as new"));
    }
    let mut log = bench.header()?;
    let end = log.len();
    log.extend_from_slice(records)?;
    // A replica that the handle holds is freed.
    let status = bench.open_one(log.as_slice());
    Ok((status, bench.size.saturating_sub(end)))
}

#[test]
fn a_log_is_used_up_to_its_whole_records(rt: HostRuntime) -> Result<(), Fail> {
    assert!(rt; opened_over(rt.alloc(), &[])? == (OK, 0));
    assert!(rt; opened_over(rt.alloc(), &[0, 0, 0])? == (OK, 0));
    assert!(rt; opened_over(rt.alloc(), &[0; 100])? == (CORRUPT_LOG, 0));
    Ok(())
}
