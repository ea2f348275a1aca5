//! Audits of the trace of one replica that does nothing, and of changes of it.
use super::bench::KEY;
use crate::auditing::themis_audit;
use crate::{BAD_TRACE, CFinding, CRun, OK, OTHER_KEYS, OTHER_RUN, UNLAWFUL};
use std::alloc::Global;
use std::test::Fail;

/// The trace of a run of four views, with the view of the commit that the replica's head reports.
fn trace(alloc: Global, commit: u8) -> Result<Vec<u8>, Fail> {
    let mut bytes = Vec::from_slice(alloc, b"THEMISR2")?;
    bytes.extend_from_slice(&[1, 0, 0, 1, 0, 1, 0, 0, 0, 4, 1])?;
    bytes.extend_from_slice(&KEY)?;
    bytes.extend_from_slice(&[0; 24])?;
    bytes.extend_from_slice(&[commit, 0, 0, 0, 0])?;
    Ok(bytes)
}

/// The status of an audit by these views and this key, with the byte and the rule that it writes.
fn audited(alloc: Global, trace: &[u8], views: u32, key: [u8; 60]) -> (u32, u64, u32) {
    let run = CRun {
        n: 1,
        f: 0,
        p: 1,
        q: 1,
        views,
        height: 5,
    };
    let mut finding = CFinding {
        at: 9,
        replica: 9,
        entry: 9,
        rule: 9,
        part: 9,
        signer: 9,
        has_second: 9,
        second_replica: 9,
        second_entry: 9,
        faulty: 9,
    };
    let status = themis_audit(alloc, trace, &run, &[key], &mut finding);
    (status, finding.at, finding.rule)
}

/// Each answer but those on seals and blocks. What is refused leaves the place as it was.
fn are_answered(alloc: Global) -> Result<bool, Fail> {
    let bytes = trace(alloc, 0)?;
    let other = trace(alloc, 1)?;
    let trace = bytes.as_slice();
    let truncated = trace.get(..107).unwrap_or(&[]);
    Ok(
        audited(alloc, trace, 4, KEY) == (OK, 0, 0)
            && audited(alloc, other.as_slice(), 4, KEY) == (UNLAWFUL, 0, 6)
            && audited(alloc, truncated, 4, KEY) == (BAD_TRACE, 104, 0)
            && audited(alloc, trace, 4, [8; 60]) == (OTHER_KEYS, 9, 9)
            && audited(alloc, trace, 3, KEY) == (OTHER_RUN, 9, 9),
    )
}

#[test]
fn an_audit_has_one_answer(rt: HostRuntime) -> Result<(), Fail> {
    assert!(rt; are_answered(rt.alloc())?);
    Ok(())
}
