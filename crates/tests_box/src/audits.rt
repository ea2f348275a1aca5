//! The run of a single replica, recorded as a host would record it, and audited with the replica's run and public key.
use crate::replicas::public_of;
use audit_core::Finding;
use count_set::ReplicaSet;
use node_core::{Entries, Entry, Event, Reason, Statements, Turned};
use replica_box::{Replica, Role};
use run_record::{BatchLists, Head, Heads, Journal, Journals, RunRecord};
use seal_kit::Height;
use seq_base::{BatchList, Bytes, Outgoings, Packet, Setting, TxList, TxLists};
use std::alloc::Global;
use std::test::Fail;
use trace_audit::{AuditFault, ExpectedRun, audit};
use trace_form::{Keys, PublicKeys, write_trace};

/// The public keys of a run of one replica. The key is derived from the secret with this number in each byte.
fn publics(alloc: Global, secret: u8) -> Result<Vec<[u8; 60]>, Fail> {
    Ok(Vec::from_array(alloc, [public_of(alloc, Height::H5, secret)?])?)
}

/// The only replica of a run. Its secret has 0 in each byte.
fn alone(alloc: Global, publics: &[[u8; 60]]) -> Result<Replica, Fail> {
    let role = Role {
        setting: Setting::new(1, 0, 1, 1)?,
        views: 6,
        me: 0,
        height: Height::H5,
    };
    let (replica, _) = Replica::open(alloc, &role, &[0; 16], &[0; 32], publics, &[])?;
    Ok(replica)
}

/// The journal entry of the replica's last turn.
fn entry(alloc: Global, replica: &Replica, event: Event, reason: Reason) -> Result<Entry, Fail> {
    let mut sealed = Vec::new(alloc);
    for statement in replica.sealed() {
        sealed.push(Bytes::of(Vec::from_slice(alloc, statement.as_slice())?))?;
    }
    Ok(Entry {
        event,
        turned: Turned {
            reason,
            kept: 0,
            sealed: Statements::of(sealed),
            sends: Outgoings::of(Vec::new(alloc)),
        },
    })
}

/// The bytes of a message. If it is damaged, byte 100 is changed, which belongs to its first seal.
fn received(alloc: Global, sent: &Packet, is_damaged: bool) -> Result<Packet, Fail> {
    let mut bytes = Vec::from_slice(alloc, sent.as_slice())?;
    if is_damaged && bytes.len() > 100 {
        bytes[100] ^= 1;
    }
    Ok(Packet::of(Bytes::of(bytes))?)
}

/// The journal entry of the turn on the first message that the last turn sent; None if it sent none.
fn delivered(
    alloc: Global,
    replica: &mut Replica,
    is_damaged: bool,
) -> Result<Option<Entry>, Fail> {
    let Some(sent) = replica.sends().first() else {
        return Ok(None);
    };
    let (bytes, recorded) = (
        sent.bytes.share()?,
        received(alloc, &sent.bytes, is_damaged)?,
    );
    replica.prepare(Event::Deliver { from: 0, bytes })?;
    let reason = replica.act()?;
    let event = Event::Deliver {
        from: 0,
        bytes: recorded,
    };
    Ok(Some(entry(alloc, replica, event, reason)?))
}

/// The journal entries of a tick and of the five messages that follow, from the call for view 1 to the vote. The
/// replica sends them to itself. The message with the number `damaged` is recorded with a changed byte in its first
/// seal.
fn entries(alloc: Global, replica: &mut Replica, damaged: u32) -> Result<Entries, Fail> {
    let mut entries = Vec::new(alloc);
    replica.prepare(Event::Tick { floor: 0 })?;
    let reason = replica.act()?;
    entries.push(entry(alloc, replica, Event::Tick { floor: 0 }, reason)?)?;
    for number in 1..6u32 {
        if let Some(entry) = delivered(alloc, replica, number == damaged)? {
            entries.push(entry)?;
        }
    }
    Ok(Entries::of(entries))
}

/// The record of these turns.
fn record(alloc: Global, publics: &[[u8; 60]], damaged: u32) -> Result<RunRecord, Fail> {
    let mut replica = alone(alloc, publics)?;
    let entries = entries(alloc, &mut replica, damaged)?;
    let head = Head {
        view: replica.view(),
        commit: replica.commit_view(),
    };
    Ok(RunRecord {
        setting: Setting::new(1, 0, 1, 1)?,
        faulty: ReplicaSet::empty(),
        arrivals: TxLists::of(Vec::from_array(alloc, [TxList::of(Vec::new(alloc))])?),
        journals: Journals::of(Vec::from_array(alloc, [Journal { entries }])?),
        heads: Heads::of(Vec::from_array(alloc, [head])?),
        batches: BatchLists::of(Vec::from_array(alloc, [BatchList::of(Vec::new(alloc))])?),
        turns: 5,
        ticks: 1,
    })
}

/// The trace of the record, with the replica's public key.
fn trace(alloc: Global, publics: &[[u8; 60]], damaged: u32) -> Result<Vec<u8>, Fail> {
    let keys = Keys::Public(PublicKeys::of(Vec::from_slice(alloc, publics)?));
    let run = record(alloc, publics, damaged)?;
    Ok(write_trace(alloc, &run, &keys, Height::H5, 6)?.into_vec())
}

/// What an audit finds in a trace, if it is of this run with these keys.
fn finding_in(
    alloc: Global,
    bytes: &[u8],
    publics: &[[u8; 60]],
) -> Result<Result<Finding, AuditFault>, Fail> {
    let run = ExpectedRun {
        setting: Setting::new(1, 0, 1, 1)?,
        views: 6,
        height: Height::H5,
    };
    match audit(alloc, bytes, &run, publics) {
        Ok(audited) => Ok(Ok(audited.finding)),
        Err(fault) => Ok(Err(fault)),
    }
}

fn is_lawful(alloc: Global) -> Result<bool, Fail> {
    let publics = publics(alloc, 0)?;
    let bytes = trace(alloc, &publics, 0)?;
    Ok(finding_in(alloc, &bytes, &publics)? == Ok(Finding::Obeys))
}

#[test]
fn the_record_of_a_replica_passes_the_audit(rt: HostRuntime) -> Result<(), Fail> {
    assert!(rt; is_lawful(rt.alloc())?);
    Ok(())
}

/// Whether the audit refuses the trace with another expected key, with no expected key, and with a seed instead of its
/// key.
fn other_keys_are_reported(alloc: Global) -> Result<bool, Fail> {
    let own = publics(alloc, 0)?;
    let run = record(alloc, &own, 0)?;
    let seeded = write_trace(alloc, &run, &Keys::Seed(7), Height::H5, 6)?;
    let keys = Keys::Public(PublicKeys::of(Vec::from_slice(alloc, &own)?));
    let bytes = write_trace(alloc, &run, &keys, Height::H5, 6)?;
    let other = Err(AuditFault::OtherKeys);
    Ok(
        finding_in(alloc, bytes.as_slice(), &[[7; 60]])? == other
            && finding_in(alloc, bytes.as_slice(), &[])? == other
            && finding_in(alloc, seeded.as_slice(), &own)? == other,
    )
}

#[test]
fn a_trace_of_other_keys_is_refused(rt: HostRuntime) -> Result<(), Fail> {
    assert!(rt; other_keys_are_reported(rt.alloc())?);
    Ok(())
}

/// The finding that an entry breaks a rule.
fn breaks(entry: u32, rule: u32) -> Result<Finding, AuditFault> {
    Ok(Finding::Breaks {
        replica: 0,
        entry,
        rule,
    })
}

/// Whether the audit reports a vote that was accepted although its seal does not fit, and a refused tick that seals a
/// call. Byte 101 is the reason of the tick.
fn changes_are_reported(alloc: Global) -> Result<bool, Fail> {
    let publics = publics(alloc, 0)?;
    let mut bytes = trace(alloc, &publics, 5)?;
    let vote = finding_in(alloc, &bytes, &publics)? == breaks(5, 2);
    if bytes.len() > 101 {
        bytes[101] = 8;
    }
    Ok(vote && finding_in(alloc, &bytes, &publics)? == breaks(0, 2))
}

#[test]
fn a_changed_entry_is_reported(rt: HostRuntime) -> Result<(), Fail> {
    assert!(rt; changes_are_reported(rt.alloc())?);
    Ok(())
}

/// Whether a truncated trace is refused at its truncated field: the key at byte 19, or the first message at byte 160.
fn truncations_are_reported(alloc: Global) -> Result<bool, Fail> {
    let publics = publics(alloc, 0)?;
    let mut bytes = trace(alloc, &publics, 0)?;
    bytes.truncate(200);
    let message = finding_in(alloc, &bytes, &publics)? == Err(AuditFault::BadTrace { at: 160 });
    bytes.truncate(40);
    Ok(message && finding_in(alloc, &bytes, &publics)? == Err(AuditFault::BadTrace { at: 19 }))
}

#[test]
fn a_truncated_trace_is_reported(rt: HostRuntime) -> Result<(), Fail> {
    assert!(rt; truncations_are_reported(rt.alloc())?);
    Ok(())
}
