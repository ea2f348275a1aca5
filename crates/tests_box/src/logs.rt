//! Replicas that open logs: which logs they continue, and which they refuse.
use crate::replicas::{first, log_after_a_tick, opened, opened_with, publics};
use replica_box::OpenFault;
use seal_kit::Height;
use std::alloc::Global;
use std::test::Fail;

/// The view of replica 0 after it opens the log of a tick that `more` follows, and how many bytes of the log it uses.
fn reopened(alloc: Global, more: &[u8]) -> Result<(u32, usize), Fail> {
    let mut log = log_after_a_tick(alloc)?;
    log.extend_from_slice(more)?;
    let (replica, used) = first(alloc, log.as_slice())?;
    Ok((replica.view(), used))
}

#[test]
fn a_replica_continues_from_its_log(rt: HostRuntime) -> Result<(), Fail> {
    assert!(rt; reopened(rt.alloc(), &[])? == (1, 101));
    assert!(rt; reopened(rt.alloc(), &[0, 0, 0])? == (1, 101));
    Ok(())
}

/// The view of replica 0 after it opens a log with only `size` bytes of the header, and how many bytes of the log it
/// uses.
fn used_of_header(alloc: Global, size: usize) -> Result<(u32, usize), Fail> {
    let (replica, _) = first(alloc, &[])?;
    let header = replica.header().get(..size).unwrap_or(&[]);
    let (again, used) = first(alloc, header)?;
    Ok((again.view(), used))
}

#[test]
fn a_truncated_header_is_a_new_log(rt: HostRuntime) -> Result<(), Fail> {
    assert!(rt; used_of_header(rt.alloc(), 1)? == (0, 0));
    assert!(rt; used_of_header(rt.alloc(), 75)? == (0, 0));
    assert!(rt; used_of_header(rt.alloc(), 76)? == (0, 76));
    Ok(())
}

/// Why replica `me`, with the secret of replica `secret`, refuses replica 0's log of a tick; None if it does not. Byte
/// `changed` of the log is changed, if it exists, and the log is read from byte `from` on.
fn refusal(
    alloc: Global,
    me: u8,
    secret: u8,
    from: usize,
    changed: usize,
) -> Result<Option<OpenFault>, Fail> {
    let mut log = log_after_a_tick(alloc)?;
    if changed < log.len() {
        log[changed] ^= 1;
    }
    let log = log.get(from..).unwrap_or(&[]);
    Ok(opened(alloc, me, secret, log)?.err())
}

#[test]
fn the_log_and_the_secret_of_another_are_refused(rt: HostRuntime) -> Result<(), Fail> {
    let alloc = rt.alloc();
    assert!(rt; refusal(alloc, 2, 2, 0, 101)? == Some(OpenFault::OtherLog));
    assert!(rt; refusal(alloc, 0, 2, 0, 101)? == Some(OpenFault::Secret));
    assert!(rt; refusal(alloc, 7, 0, 0, 101)? == Some(OpenFault::Number));
    Ok(())
}

#[test]
fn a_changed_log_is_refused(rt: HostRuntime) -> Result<(), Fail> {
    let alloc = rt.alloc();
    assert!(rt; refusal(alloc, 0, 0, 76, 101)? == Some(OpenFault::NoHeader));
    assert!(rt; refusal(alloc, 0, 0, 0, 20)? == Some(OpenFault::NoHeader));
    assert!(rt; refusal(alloc, 0, 0, 0, 92)? == Some(OpenFault::Corrupt { at: 76 }));
    assert!(rt; refusal(alloc, 0, 0, 0, 101)? == None);
    Ok(())
}

/// The header of replica 0 with keys of a height.
fn header_with(alloc: Global, height: Height, publics: &[[u8; 60]]) -> Result<Vec<u8>, Fail> {
    let (replica, _) = opened_with(alloc, height, publics, 0, 0, &[])??;
    Ok(Vec::from_slice(alloc, replica.header())?)
}

/// Whether replica 0 with keys of one height refuses its log with keys of another, and continues its own.
fn is_told_apart(
    alloc: Global,
    own: Height,
    other: Height,
    publics: &[[u8; 60]],
) -> Result<bool, Fail> {
    let log = header_with(alloc, own, publics)?;
    let log = log.as_slice();
    let refused = opened_with(alloc, other, publics, 0, 0, log)?.err();
    let accepted = opened_with(alloc, own, publics, 0, 0, log)?.is_ok();
    Ok(accepted && refused == Some(OpenFault::OtherLog))
}

/// Two levels of heights 5 and 5, or 5 and 10, have the same public key.
fn are_told_apart(alloc: Global) -> Result<bool, Fail> {
    let keys = publics(alloc, Height::H5H5)?;
    let keys = keys.as_slice();
    let same = publics(alloc, Height::H5H10)?.as_slice() == keys;
    Ok(
        same && is_told_apart(alloc, Height::H5H5, Height::H5H10, keys)?
            && is_told_apart(alloc, Height::H5H10, Height::H5H5, keys)?,
    )
}

#[test]
fn the_log_of_another_height_is_refused(rt: HostRuntime) -> Result<(), Fail> {
    assert!(rt; are_told_apart(rt.alloc())?);
    Ok(())
}
