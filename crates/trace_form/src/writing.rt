//! Writes a whole trace.
ghost use Rattle.std.specs.Prelude.{◌≡◌, ◌++◌, ℕ, List, map, slice_index_or, IfOk, OnOk};
ghost use Rattle.std.specs.List.{flat_map, range_with_len};
ghost use Rattle.trace_form.specs.Contents.{bare, account_of, contents_of, bared, held_of, opening_of, span_of};
ghost use Rattle.trace_form.specs.Texts.{account_text, member_text};
ghost use Rattle.trace_form.specs.Fitting.{Traces};
ghost use Rattle.trace_form.specs.Spelling.{account_spelling, accounts_spelling, batches_spelling, contents_spelling, entries_spelling, faulty_spelling, head_spelling, list_spelling, opening_spelling, setting_spelling, span_spelling};

use crate::keys::{Keys, form_of, magic};
use crate::put::{height_code, put_count, put_entry, put_list, put_u8, put_u16, put_u32, put_u64};
use count_set::ReplicaSet;
use node_core::Entry;
use run_record::{Head, Journal, RunRecord};
use seal_kit::Height;
use seq_base::{BatchList, Bytes, NoMemory, Setting, TxList};
use std::alloc::Global;

/// A set of replicas has room for those below this number.
const MAX_MEMBERS: u32 = 32;

/// The bytes of the trace of a record made bare, with how its seals are checked. The keys decide its form. A number
/// that does not fit its field is written by its low bytes; then no bytes spell the trace. Nor do any if public keys are
/// fewer or more than the replicas: all of them are written.
pub fn write_trace(
    alloc: Global,
    run: &RunRecord,
    keys: &Keys,
    height: Height,
    views: u32,
) -> Result<Bytes, NoMemory>
    // They are the spelling of the record made bare.
    ensures exact { IfOk result (λ bytes. bytes ≡ contents_spelling (contents_of run.now (span_of views keys.now height))) }
    // If any bytes spell its trace, these do.
    ensures only { (spelled : List ℕ) → Traces (bared run.now (span_of views keys.now height)) spelled → IfOk result (λ bytes. bytes ≡ spelled) }
{
    let mut out = Vec::new(alloc);
    put_contents(&mut out, run, keys, height, views)?;
    Ok(Bytes::of(out))
}

#[tactic(auto, unfolding(crate::specs::Spelling::contents_spelling))]
fn put_contents(
    out: &mut Vec<u8>,
    run: &RunRecord,
    keys: &Keys,
    height: Height,
    views: u32,
) -> Result<(), NoMemory>
    ensures { OnOk result (out.new.items ≡ out.old.items ++ contents_spelling (contents_of run.now (span_of views keys.now height))) }
{
    put_opening(out, run, keys, height, views)?;
    put_lists(out, run.arrivals.as_slice())?;
    put_accounts(out, run)
}

#[tactic(auto, unfolding(crate::specs::Spelling::opening_spelling))]
fn put_opening(
    out: &mut Vec<u8>,
    run: &RunRecord,
    keys: &Keys,
    height: Height,
    views: u32,
) -> Result<(), NoMemory>
    ensures { OnOk result (out.new.items ≡ out.old.items ++ opening_spelling (opening_of run.now (span_of views keys.now height))) }
{
    out.extend_from_slice(magic(form_of(keys)))?;
    put_setting(out, &run.setting)?;
    put_span(out, keys, height, views)?;
    put_u32(out, run.turns)?;
    put_u32(out, run.ticks)?;
    put_faulty(out, &run.faulty)
}

#[tactic(auto, unfolding(crate::specs::Spelling::setting_spelling))]
fn put_setting(out: &mut Vec<u8>, setting: &Setting) -> Result<(), NoMemory>
    ensures { OnOk result (out.new.items ≡ out.old.items ++ setting_spelling setting.now) }
{
    put_u8(out, setting.n())?;
    put_u8(out, setting.f())?;
    put_u16(out, setting.p())?;
    put_u16(out, setting.q())
}

#[tactic(auto, unfolding(crate::specs::Spelling::span_spelling))]
fn put_span(out: &mut Vec<u8>, keys: &Keys, height: Height, views: u32) -> Result<(), NoMemory>
    ensures { OnOk result (out.new.items ≡ out.old.items ++ span_spelling (span_of views keys.now height)) }
{
    put_u32(out, views)?;
    match keys {
        Keys::Seed(seed) => {
            put_u64(out, *seed)?;
            put_u8(out, height_code(height))
        }
        Keys::Public(keys) => {
            put_u8(out, height_code(height))?;
            put_keys(out, keys.as_slice())
        }
    }
}

/// The public keys, one after another.
fn put_keys(out: &mut Vec<u8>, keys: &[[u8; 60]]) -> Result<(), NoMemory>
    ensures { OnOk result (out.new.items ≡ out.old.items ++ flat_map (λ key. key) keys.now) }
{
    for key in keys {
        out.extend_from_slice(key)?;
    }
    Ok(())
}

#[tactic(auto, unfolding(crate::specs::Spelling::faulty_spelling))]
fn put_faulty(out: &mut Vec<u8>, faulty: &ReplicaSet) -> Result<(), NoMemory>
    ensures { OnOk result (out.new.items ≡ out.old.items ++ faulty_spelling faulty.now) }
{
    put_u8(out, faulty.size())?;
    for replica in 0..MAX_MEMBERS {
        put_member(out, faulty, replica)?;
    }
    Ok(())
}

/// The replica, if it is a member.
fn put_member(out: &mut Vec<u8>, members: &ReplicaSet, replica: u32) -> Result<(), NoMemory>
    ensures { OnOk result (out.new.items ≡ out.old.items ++ member_text members.now replica) }
{
    if members.has(replica) {
        put_u8(out, replica)?;
    }
    Ok(())
}

fn put_lists(out: &mut Vec<u8>, lists: &[TxList]) -> Result<(), NoMemory>
    ensures { OnOk result (out.new.items ≡ out.old.items ++ flat_map list_spelling lists.now) }
{
    for list in lists {
        put_list(out, list.as_slice())?;
    }
    Ok(())
}

fn put_accounts(out: &mut Vec<u8>, run: &RunRecord) -> Result<(), NoMemory>
    ensures { OnOk result
        (out.new.items ≡ out.old.items ++ accounts_spelling run.now.faulty 0 (map (account_of run.now) (range_with_len 0 run.now.setting.n))) }
{
    for replica in 0..run.setting.n() {
        put_account(out, run, replica)?;
    }
    Ok(())
}

/// Writes the account of a replica. Nothing is recorded of a faulty one.
fn put_account(out: &mut Vec<u8>, run: &RunRecord, replica: u32) -> Result<(), NoMemory>
    ensures { OnOk result (out.new.items ≡ out.old.items ++ account_text run.now replica) }
{
    if !run.faulty.has(replica) {
        put_held(out, run, replica)?;
    }
    Ok(())
}

/// Writes what the record has of a replica.
fn put_held(out: &mut Vec<u8>, run: &RunRecord, replica: u32) -> Result<(), NoMemory>
    ensures { OnOk result (out.new.items ≡ out.old.items ++ account_spelling (held_of run.now replica)) }
{
    put_journal(out, run.journals.as_slice(), replica)?;
    put_head(out, run.heads.as_slice(), replica)?;
    put_batches(out, run.batches.as_slice(), replica)
}

#[tactic(auto, unfolding(crate::specs::Spelling::entries_spelling))]
fn put_journal(out: &mut Vec<u8>, journals: &[Journal], replica: u32) -> Result<(), NoMemory>
    ensures { OnOk result (out.new.items ≡ out.old.items ++ entries_spelling (slice_index_or journals.now replica bare.journal).entries) }
{
    match journals.get(replica as usize) {
        Some(journal) => put_entries(out, journal.entries.as_slice()),
        None => put_count(out, 0),
    }
}

#[tactic(auto, unfolding(crate::specs::Spelling::head_spelling))]
fn put_head(out: &mut Vec<u8>, heads: &[Head], replica: u32) -> Result<(), NoMemory>
    ensures { OnOk result (out.new.items ≡ out.old.items ++ head_spelling (slice_index_or heads.now replica bare.head)) }
{
    let head = match heads.get(replica as usize) {
        Some(head) => *head,
        None => Head { view: 0, commit: 0 },
    };
    put_u32(out, head.view)?;
    put_u32(out, head.commit)
}

#[tactic(auto, unfolding(crate::specs::Spelling::batches_spelling))]
fn put_batches(out: &mut Vec<u8>, batches: &[BatchList], replica: u32) -> Result<(), NoMemory>
    ensures { OnOk result (out.new.items ≡ out.old.items ++ batches_spelling (slice_index_or batches.now replica bare.batches)) }
{
    match batches.get(replica as usize) {
        Some(batches) => put_batch_list(out, batches.as_slice()),
        None => put_count(out, 0),
    }
}

#[tactic(auto, unfolding(crate::specs::Spelling::entries_spelling))]
fn put_entries(out: &mut Vec<u8>, entries: &[Entry]) -> Result<(), NoMemory>
    ensures { OnOk result (out.new.items ≡ out.old.items ++ entries_spelling entries.now) }
{
    put_count(out, entries.len())?;
    for entry in entries {
        put_entry(out, entry)?;
    }
    Ok(())
}

#[tactic(auto, unfolding(crate::specs::Spelling::batches_spelling))]
fn put_batch_list(out: &mut Vec<u8>, batches: &[TxList]) -> Result<(), NoMemory>
    ensures { OnOk result (out.new.items ≡ out.old.items ++ batches_spelling batches.now) }
{
    put_count(out, batches.len())?;
    put_lists(out, batches)
}
