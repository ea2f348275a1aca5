//! Records that no run made, and their verdicts.
use crate::cases::{Checked, check_cases, with_verdict};
use crate::reports::{write_word, write_yes_or_no};
use count_set::ReplicaSet;
use node_core::{Entries, Entry, Event, Reason, Statements, Turned};
use run_record::{
    BatchLists, ForgedAt, Heads, Journal, Journals, RunRecord, due, holds_all, is_honest, of_honest,
};
use run_verdict::first_forged;
use seal_kit::{Height, LooseChecker, LooseMaker, SealMaker};
use seq_base::{BatchList, Bytes, NoMemory, Outgoings, Packet, Setting, Tx, TxList, TxLists};
use std::alloc::{AllocError, Global};
use std::fmt::Write;
use std::test::Fail;

/// A record has the number of replicas, the entries of the first one's journal, and the batch lists. The first replica
/// received a transaction, and each list has one batch of a client's transaction. A vote that nobody sealed is forged;
/// one that was sealed later is not. A run that finalised nothing is stalled. A block that is delivered twice, alone
/// or in a proposal, does not collide with itself.
const RECORDS: &str = "\
forged|record 1 deliver 1|0 0 0 0
verdict|record 1 deliver 1|forged 0 0 0 0
collision verdict|record 1 deliver+seal 1|none done
verdict due honest|record 1 - -|stalled 1.1.0 held yes no
collision verdict|record 1 give+give 1|none done
collision|record 1 give+propose 1|none
";

#[test]
fn records_that_no_run_made_show_what_they_hold(rt: HostRuntime) -> Result<(), Fail> {
    check_cases(rt.alloc(), RECORDS)
}

/// If a seal is forged, the lists of two honest replicas may differ, and the verdict is that it is forged. The vote
/// that nobody sealed was delivered to the first replica.
const PARTED: &str = "parted verdict|record 2 deliver 1+2|yes forged 0 0 0 0";

#[test]
fn lists_may_differ_where_a_vote_is_forged(rt: HostRuntime) -> Result<(), Fail> {
    check_cases(rt.alloc(), PARTED)
}

fn tx(client: u32) -> Tx {
    Tx {
        client,
        number: 1,
        payload: 0,
    }
}

/// The statement of replica 0's vote in view 1 for an unknown block.
fn push_statement(bytes: &mut Vec<u8>) -> Result<(), AllocError> {
    bytes.extend_from_slice(&[5, 0, 0, 0, 0, 1])?;
    bytes.extend_from_slice(&[255; 32])
}

fn statement(alloc: Global) -> Result<Bytes, Fail> {
    let mut bytes = Vec::new(alloc);
    push_statement(&mut bytes)?;
    Ok(Bytes::of(bytes))
}

/// A block of view 1 with the certificate of the first block and no orders.
fn push_block(bytes: &mut Vec<u8>) -> Result<(), AllocError> {
    bytes.extend_from_slice(&[0, 0, 0, 1])?;
    bytes.extend_from_slice(&[0; 38])
}

/// The block alone, a proposal of it, or the vote without a local order. Seals are empty.
fn push_message(bytes: &mut Vec<u8>, text: &str) -> Result<(), AllocError> {
    match text {
        "give" => {
            bytes.extend_from_slice(&[2, 7])?;
            push_block(bytes)
        }
        "propose" => {
            bytes.extend_from_slice(&[2, 4, 0])?;
            push_block(bytes)?;
            bytes.extend_from_slice(&[0, 0])
        }
        _ => {
            bytes.extend_from_slice(&[2])?;
            push_statement(bytes)?;
            bytes.extend_from_slice(&[0, 0, 0])
        }
    }
}

fn delivery(alloc: Global, text: &str) -> Result<Event, Fail> {
    let mut bytes = Vec::new(alloc);
    push_message(&mut bytes, text)?;
    Ok(Event::Deliver {
        from: 0,
        bytes: Packet::of(Bytes::of(bytes))?,
    })
}

/// An event whose turn sealed these statements.
fn entry(alloc: Global, event: Event, sealed: Vec<Bytes>) -> Entry {
    Entry {
        event,
        turned: Turned {
            reason: Reason::Done,
            kept: 0,
            sealed: Statements::of(sealed),
            sends: Outgoings::of(Vec::new(alloc)),
        },
    }
}

/// An entry in which the vote is sealed at a tick, or a message is delivered.
fn entry_of(alloc: Global, text: &str) -> Result<Entry, Fail> {
    if text != "seal" {
        return Ok(entry(alloc, delivery(alloc, text)?, Vec::new(alloc)));
    }
    let sealed = vec![in alloc; statement(alloc)?]?;
    Ok(entry(alloc, Event::Tick { floor: 0 }, sealed))
}

fn journals_of(alloc: Global, text: &str) -> Result<Journals, Fail> {
    let mut entries = Vec::new(alloc);
    for word in text.split_terminator('+') {
        if word != "-" {
            entries.push(entry_of(alloc, word)?)?;
        }
    }
    let entries = Entries::of(entries);
    Ok(Journals::of(vec![in alloc; Journal { entries }]?))
}

/// One batch of a client's transaction, or no batch.
fn list_of(alloc: Global, client: &str) -> Result<BatchList, NoMemory> {
    let client = match client {
        "1" => 1,
        "2" => 2,
        _ => return Ok(BatchList::of(Vec::new(alloc))),
    };
    let batch = TxList::of(Vec::from_slice(alloc, &[tx(client)])?);
    Ok(BatchList::of(vec![in alloc; batch]?))
}

fn lists_of(alloc: Global, text: &str) -> Result<BatchLists, NoMemory> {
    let mut lists = Vec::new(alloc);
    for client in text.split_terminator('+') {
        lists.push(list_of(alloc, client)?)?;
    }
    Ok(BatchLists::of(lists))
}

fn arrivals(alloc: Global) -> Result<TxLists, NoMemory> {
    let arrived = TxList::of(Vec::from_slice(alloc, &[tx(1)])?);
    Ok(TxLists::of(vec![in alloc; arrived]?))
}

fn record_of(alloc: Global, text: &str) -> Result<RunRecord, Fail> {
    let mut words = text.split_whitespace();
    let n = if words.next() == Some("2") { 2 } else { 1 };
    let setting = Setting::new(n, 0, 1, 1)?;
    let journals = journals_of(alloc, words.next().unwrap_or(""))?;
    let batches = lists_of(alloc, words.next().unwrap_or(""))?;
    Ok(RunRecord {
        setting,
        faulty: ReplicaSet::empty(),
        arrivals: arrivals(alloc)?,
        journals,
        heads: Heads::of(Vec::new(alloc)),
        batches,
        turns: 1,
        ticks: 0,
    })
}

/// The checker that accepts any seal.
fn checker(alloc: Global) -> Result<LooseChecker, Fail> {
    Ok(LooseMaker::new(alloc).make(1, Height::H5, 1)?.checker)
}

/// A record, and its verdict if any seal fits.
pub(crate) fn check(alloc: Global, text: &str) -> Result<Checked, Fail> {
    let checker = checker(alloc)?;
    with_verdict(alloc, record_of(alloc, text)?, &checker)
}

/// The first place of a record at which a vote is forged.
pub(crate) fn forged_at(alloc: Global, input: &str) -> Result<Option<ForgedAt>, Fail> {
    let (_, text) = input.split_once(' ').unwrap_or((input, ""));
    let checker = checker(alloc)?;
    let run = record_of(alloc, text)?;
    Ok(first_forged(&run, &checker))
}

/// The due transactions, and whether the list of the first client's transaction holds them.
pub(crate) fn write_due(answer: &mut String, alloc: Global, run: &RunRecord) -> Result<(), Fail> {
    let due = due(alloc, &run.setting, &run.faulty, run.arrivals.as_slice())?;
    for tx in due.as_slice() {
        write!(answer, "{tx} ")?;
    }
    let is_held = holds_all(alloc, &list_of(alloc, "1")?, &due)?;
    write_word(answer, if is_held { "held" } else { "not held" })
}

/// Whether the first replica is honest, and whether the second one is and has a list.
pub(crate) fn write_honest(answer: &mut String, run: &RunRecord) -> Result<(), Fail> {
    write_yes_or_no(answer, is_honest(&run.setting, &run.faulty, 0))?;
    answer.push(' ')?;
    let batches = run.batches.as_slice();
    write_yes_or_no(
        answer,
        of_honest(&run.setting, &run.faulty, batches, 1).is_some(),
    )
}
