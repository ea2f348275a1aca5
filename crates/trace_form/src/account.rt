//! What a trace records of one replica: its entries, its head and its batches.
ghost use Rattle.std.specs.Prelude.{◌≡◌, List, [], length};
ghost use Rattle.trace_form.specs.declared.account.Account.{Account};
ghost use Rattle.trace_form.specs.Gives.{Gives};
ghost use Rattle.trace_form.specs.Codes.{reason_named};
ghost use Rattle.trace_form.specs.Contents.{bare};
ghost use Rattle.trace_form.specs.Lists.{bytes_at};
ghost use Rattle.trace_form.specs.Reading.{each_at};
ghost use Rattle.trace_form.specs.Accounts.{account_at, next_account_at, entries_at, entry_at, event_at, delivered_at, reason_at, statements_at, head_at, batches_at};

use crate::fault::Stop;
use crate::fields::{read_byte, read_bytes, read_list, read_lists, read_u32};
use count_set::ReplicaSet;
use node_core::{Entries, Entry, Event, Reason, Statements, Turned};
use run_record::{Head, Journal};
use seq_base::{BatchList, Bytes, Items, Outgoings, Packet};
use std::alloc::Global;
use wire_view::WireFault;

/// The maximum number of statements that a turn seals.
const MAX_STATEMENTS: u32 = 2;

/// What a trace records of a replica.
#[derive(Drop)]
pub struct Account {
    pub journal: Journal,
    pub head: Head,
    pub batches: BatchList,
}

/// One account for each replica.
pub(crate) type Accounts = Items<Account>;

/// The account of a faulty replica, of which nothing is recorded. It allocates nothing.
fn bare(alloc: Global) -> Account
    ensures { result ≡ bare }
{
    Account {
        journal: Journal {
            entries: Entries::of(Vec::new(alloc)),
        },
        head: Head { view: 0, commit: 0 },
        batches: BatchList::of(Vec::new(alloc)),
    }
}

#[tactic(auto, using(crate::proofs::Steps::each_goes_on, crate::proofs::Steps::each_blames, crate::proofs::Steps::each_ends))]
pub(crate) fn read_accounts<'a>(
    alloc: Global,
    n: u32,
    faulty: &ReplicaSet,
    bytes: &'a [u8],
) -> Result<(Accounts, &'a [u8]), Stop>
    ensures { Gives (λ x. (x.0, x.1.now)) result (each_at (next_account_at n faulty.now) n [] bytes.now) }
{
    let mut accounts = Vec::new(alloc);
    let mut rest = bytes;
    for replica in 0..n {
        let (account, following) = read_next_account(alloc, n, faulty, replica, rest)?;
        accounts.push(account)?;
        rest = following;
    }
    Ok((Accounts::of(accounts), rest))
}

/// Writes the account of this replica. Nothing is recorded of a faulty one.
#[tactic(auto, unfolding(crate::specs::Accounts::next_account_at))]
fn read_next_account<'a>(
    alloc: Global,
    n: u32,
    faulty: &ReplicaSet,
    replica: u32,
    bytes: &'a [u8],
) -> Result<(Account, &'a [u8]), Stop>
    ensures { (before : List Account) → length before ≡ replica → Gives (λ x. (x.0, x.1.now)) result (next_account_at n faulty.now before bytes.now) }
{
    if faulty.has(replica) {
        Ok((bare(alloc), bytes))
    } else {
        read_account(alloc, n, bytes)
    }
}

#[tactic(auto, unfolding(crate::specs::Accounts::account_at))]
fn read_account(alloc: Global, n: u32, bytes: &[u8]) -> Result<(Account, &[u8]), Stop>
    ensures { Gives (λ x. (x.0, x.1.now)) result (account_at n bytes.now) }
{
    let (entries, rest) = read_entries(alloc, n, bytes)?;
    let (head, rest) = read_head(rest)?;
    let (batches, rest) = read_batches(alloc, rest)?;
    let account = Account {
        journal: Journal { entries },
        head,
        batches,
    };
    Ok((account, rest))
}

#[tactic(auto, unfolding(crate::specs::Accounts::entries_at))]
fn read_entries(alloc: Global, n: u32, bytes: &[u8]) -> Result<(Entries, &[u8]), Stop>
    ensures { Gives (λ x. (x.0, x.1.now)) result (entries_at n bytes.now) }
{
    let (count, rest) = read_u32(bytes)?;
    let (entries, rest) = read_each_entry(alloc, n, count, rest)?;
    Ok((Entries::of(entries), rest))
}

#[tactic(auto, using(crate::proofs::Steps::each_goes_on, crate::proofs::Steps::each_blames, crate::proofs::Steps::each_ends))]
fn read_each_entry(
    alloc: Global,
    n: u32,
    count: u32,
    bytes: &[u8],
) -> Result<(Vec<Entry>, &[u8]), Stop>
    ensures { Gives (λ x. (x.0.items, x.1.now)) result (each_at (λ before. entry_at n) count [] bytes.now) }
{
    let mut entries = Vec::new(alloc);
    let mut rest = bytes;
    for _at in 0..count {
        let (entry, following) = read_entry(alloc, n, rest)?;
        entries.push(entry)?;
        rest = following;
    }
    Ok((entries, rest))
}

#[tactic(auto, unfolding(crate::specs::Accounts::entry_at))]
fn read_entry(alloc: Global, n: u32, bytes: &[u8]) -> Result<(Entry, &[u8]), Stop>
    ensures { Gives (λ x. (x.0, x.1.now)) result (entry_at n bytes.now) }
{
    let (event, rest) = read_event(alloc, n, bytes)?;
    let (reason, rest) = read_reason(rest)?;
    let (kept, rest) = read_u32(rest)?;
    let (sealed, rest) = read_statements(alloc, rest)?;
    let turned = Turned {
        reason,
        kept,
        sealed,
        sends: Outgoings::of(Vec::new(alloc)),
    };
    Ok((Entry { event, turned }, rest))
}

#[tactic(auto, unfolding(crate::specs::Accounts::event_at, crate::specs::Accounts::arrived_at, crate::specs::Accounts::tick_at))]
fn read_event(alloc: Global, n: u32, bytes: &[u8]) -> Result<(Event, &[u8]), Stop>
    ensures { Gives (λ x. (x.0, x.1.now)) result (event_at n bytes.now) }
{
    let (kind, rest) = read_byte(bytes)?;
    match kind {
        1 => {
            let (list, rest) = read_list(alloc, true, rest)?;
            Ok((Event::Arrived(list), rest))
        }
        2 => read_delivered(alloc, n, rest),
        3 => {
            let (floor, rest) = read_u32(rest)?;
            Ok((Event::Tick { floor }, rest))
        }
        _ => Err(Stop::Left(bytes.len())),
    }
}

#[tactic(auto, unfolding(crate::specs::Accounts::delivered_at))]
fn read_delivered(alloc: Global, n: u32, bytes: &[u8]) -> Result<(Event, &[u8]), Stop>
    ensures { Gives (λ x. (x.0, x.1.now)) result (delivered_at n bytes.now) }
{
    let (from, rest) = read_byte(bytes)?;
    if from >= n {
        return Err(Stop::Left(bytes.len()));
    }
    let (bytes, rest) = read_bytes(alloc, rest)?;
    let bytes = Packet::of(bytes)?;
    Ok((Event::Deliver { from, bytes }, rest))
}

#[tactic(auto, unfolding(crate::specs::Accounts::reason_at))]
fn read_reason(bytes: &[u8]) -> Result<(Reason, &[u8]), Stop>
    ensures { Gives (λ x. (x.0, x.1.now)) result (reason_at bytes.now) }
{
    let (code, rest) = read_byte(bytes)?;
    match reason_named(code) {
        Some(reason) => Ok((reason, rest)),
        None => Err(Stop::Left(bytes.len())),
    }
}

fn reason_named(code: u32) -> Option<Reason>
    ensures { result ≡ reason_named code }
{
    let reasons = [
        Reason::Done,
        Reason::BadWire(WireFault::Short),
        Reason::BadWire(WireFault::Trailing),
        Reason::BadWire(WireFault::Kind),
        Reason::BadWire(WireFault::Version),
        Reason::BadWire(WireFault::Count),
        Reason::BadWire(WireFault::Shape),
        Reason::Foreign,
        Reason::ViewLimit,
        Reason::NotLeader,
        Reason::OldView,
        Reason::BadSeal,
        Reason::BadCert,
        Reason::Orphan,
        Reason::Misfit,
        Reason::Clash,
        Reason::Unsafe,
        Reason::Repeat,
    ];
    reasons.get(code as usize).copied()
}

#[tactic(auto, unfolding(crate::specs::Accounts::statements_at))]
fn read_statements(alloc: Global, bytes: &[u8]) -> Result<(Statements, &[u8]), Stop>
    ensures { Gives (λ x. (x.0, x.1.now)) result (statements_at bytes.now) }
{
    let (count, rest) = read_byte(bytes)?;
    if count > MAX_STATEMENTS {
        return Err(Stop::Left(bytes.len()));
    }
    let (statements, rest) = read_each_statement(alloc, count, rest)?;
    Ok((Statements::of(statements), rest))
}

#[tactic(auto, using(crate::proofs::Steps::each_goes_on, crate::proofs::Steps::each_blames, crate::proofs::Steps::each_ends))]
fn read_each_statement(alloc: Global, count: u32, bytes: &[u8]) -> Result<(Vec<Bytes>, &[u8]), Stop>
    ensures { Gives (λ x. (x.0.items, x.1.now)) result (each_at (λ before. bytes_at) count [] bytes.now) }
{
    let mut statements = Vec::new(alloc);
    let mut rest = bytes;
    for _at in 0..count {
        let (statement, following) = read_bytes(alloc, rest)?;
        statements.push(statement)?;
        rest = following;
    }
    Ok((statements, rest))
}

#[tactic(auto, unfolding(crate::specs::Accounts::head_at))]
fn read_head(bytes: &[u8]) -> Result<(Head, &[u8]), Stop>
    ensures { Gives (λ x. (x.0, x.1.now)) result (head_at bytes.now) }
{
    let (view, rest) = read_u32(bytes)?;
    let (commit, rest) = read_u32(rest)?;
    Ok((Head { view, commit }, rest))
}

#[tactic(auto, unfolding(crate::specs::Accounts::batches_at))]
fn read_batches(alloc: Global, bytes: &[u8]) -> Result<(BatchList, &[u8]), Stop>
    ensures { Gives (λ x. (x.0, x.1.now)) result (batches_at bytes.now) }
{
    let (count, rest) = read_u32(bytes)?;
    let (batches, rest) = read_lists(alloc, false, count, rest)?;
    Ok((BatchList::of(batches), rest))
}
