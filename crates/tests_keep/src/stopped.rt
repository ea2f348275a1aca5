//! A replica of a run crashes after each event, and within one event with each length of its torn record. After
//! recovery its state and its turns equal those of a replica that never crashed.
ghost use Rattle.std.specs.Prelude.{◌≡◌, false, IfOk};

use crate::journal::{KEYS, STOPPED, checker, entries, node};
use durable_node::{DurableNode, KeptFault, MemKeeper, is_short};
use node_core::{Entry, Node, Turned};
use seal_kit::{Height, SealMaker, TagChecker, TagMaker, TagSealer};
use seq_base::{BatchList, Bytes, Outgoing, Setting};
use std::alloc::Global;
use std::test::Fail;

/// The event within which the replica crashes: the fourth call for the view, after which it asks for local orders.
const WITHIN: usize = 5;

/// The replica, started from what its keeper holds, with a new sealer; or why it does not start.
pub(crate) fn start_with(
    alloc: Global,
    keeper: MemKeeper,
) -> Result<Result<DurableNode<TagSealer, MemKeeper>, KeptFault>, Fail>
    requires { keeper.begun ≡ false }
{
    if keeper.openings() > 2 {
        return Err(Fail::new("opened too often"));
    }
    let setting = Setting::new(5, 1, 1, 1)?;
    let mut kit = TagMaker::new(alloc).make(7, Height::H5, 5)?;
    let sealer = kit.sealers.remove(STOPPED);
    match DurableNode::start(
        alloc,
        setting,
        6,
        Height::H5,
        &KEYS,
        sealer,
        &kit.checker,
        keeper,
    ) {
        Ok(kept) => Ok(Ok(kept)),
        Err((_, fault)) => Ok(Err(fault)),
    }
}

/// The replica, which has to start.
pub(crate) fn started(
    alloc: Global,
    keeper: MemKeeper,
) -> Result<DurableNode<TagSealer, MemKeeper>, Fail>
    requires { keeper.begun ≡ false }
{
    match start_with(alloc, keeper)? {
        Ok(kept) => Ok(kept),
        Err(_) => Err(Fail::new("not started")),
    }
}

/// The turn on an event; None if the event was not logged.
fn turned(
    kept: &mut DurableNode<TagSealer, MemKeeper>,
    checker: &TagChecker,
    entry: &Entry,
) -> Result<Option<Turned>, Fail> {
    if !is_short(&entry.event) {
        return Err(Fail::new("a long event"));
    }
    Ok(kept.turn(checker, &entry.event).ok())
}

/// Makes the turns on the first `count` events.
fn turn_each(
    kept: &mut DurableNode<TagSealer, MemKeeper>,
    checker: &TagChecker,
    entries: &[Entry],
    count: usize,
) -> Result<(), Fail> {
    for entry in entries.iter().take(count) {
        let _ = turned(kept, checker, entry)?;
    }
    Ok(())
}

/// The keeper of a replica that crashed after `count` events.
fn stopped_after(
    alloc: Global,
    entries: &[Entry],
    count: usize,
    failing: Vec<u64>,
    tails: Vec<u64>,
) -> Result<MemKeeper, Fail>
    ensures { IfOk result (λ keeper. keeper.begun ≡ false) }
{
    let checker = checker(alloc)?;
    let mut kept = started(alloc, MemKeeper::new(alloc, failing, tails))?;
    turn_each(&mut kept, &checker, entries, count)?;
    Ok(kept.crash())
}

fn turn_all(
    node: &mut Node<TagSealer>,
    checker: &TagChecker,
    entries: &[Entry],
    count: usize,
) -> Result<(), Fail> {
    for entry in entries.iter().take(count) {
        let _ = node.turn(checker, &entry.event)?;
    }
    Ok(())
}

/// A node that never crashed, after `count` events.
fn unstopped(alloc: Global, entries: &[Entry], count: usize) -> Result<Node<TagSealer>, Fail> {
    let checker = checker(alloc)?;
    let mut node = node(alloc, STOPPED)?;
    turn_all(&mut node, &checker, entries, count)?;
    Ok(node)
}

fn same_batches(a: &BatchList, b: &BatchList) -> bool {
    a.as_slice().len() == b.as_slice().len()
        && a.as_slice()
            .iter()
            .zip(b.as_slice().iter())
            .all(|(x, y)| x.as_slice() == y.as_slice())
}

fn same_state(a: &Node<TagSealer>, b: &Node<TagSealer>) -> Result<bool, Fail> {
    Ok(
        a.view() == b.view()
            && a.commit_view() == b.commit_view()
            && same_batches(&a.finals()?, &b.finals()?),
    )
}

fn same_statements(a: &[Bytes], b: &[Bytes]) -> bool {
    a.len() == b.len() && a.iter().zip(b).all(|(x, y)| x.as_slice() == y.as_slice())
}

fn same_sends(a: &[Outgoing], b: &[Outgoing]) -> bool {
    a.len() == b.len()
        && a.iter().zip(b).all(|(x, y)| x.to == y.to && x.bytes.as_slice() == y.bytes.as_slice())
}

/// Whether two turns have the same reason, statements and messages, and so the same seals.
fn same_turn(a: &Turned, b: &Turned) -> bool {
    a.reason == b.reason
        && same_statements(a.sealed.as_slice(), b.sealed.as_slice())
        && same_sends(a.sends.as_slice(), b.sends.as_slice())
}

/// Whether the turn on an event equals the journal's.
fn repeats(
    kept: &mut DurableNode<TagSealer, MemKeeper>,
    checker: &TagChecker,
    entry: &Entry,
) -> Result<bool, Fail> {
    match turned(kept, checker, entry)? {
        Some(turned) => Ok(same_turn(&turned, &entry.turned)),
        None => Ok(false),
    }
}

/// Whether the turns on these events equal the journal's.
fn repeats_all(
    kept: &mut DurableNode<TagSealer, MemKeeper>,
    checker: &TagChecker,
    entries: &[Entry],
) -> Result<bool, Fail> {
    for entry in entries {
        if !repeats(kept, checker, entry)? {
            return Ok(false);
        }
    }
    Ok(true)
}

/// Whether the state of the replica equals that of the node that never crashed, after `count` events.
fn has_state_after(
    alloc: Global,
    kept: &DurableNode<TagSealer, MemKeeper>,
    entries: &[Entry],
    count: usize,
) -> Result<bool, Fail> {
    let unstopped = unstopped(alloc, entries, count)?;
    same_state(kept.node(), &unstopped)
}

/// Whether the replica has the state after `count` events, makes the remaining turns like the node that never crashed,
/// and ends in the same state.
fn continues(
    alloc: Global,
    kept: &mut DurableNode<TagSealer, MemKeeper>,
    checker: &TagChecker,
    entries: &[Entry],
    count: usize,
) -> Result<bool, Fail> {
    let begins = has_state_after(alloc, kept, entries, count)?;
    let left = entries.get(count..).unwrap_or(&[]);
    let repeats = repeats_all(kept, checker, left)?;
    let ends = has_state_after(alloc, kept, entries, entries.len())?;
    Ok(begins && repeats && ends)
}

/// Whether the reopened replica continues like the node that never crashed.
pub(crate) fn recovers(
    alloc: Global,
    keeper: MemKeeper,
    entries: &[Entry],
    count: usize,
) -> Result<bool, Fail>
    requires { keeper.begun ≡ false }
{
    let checker = checker(alloc)?;
    let mut kept = started(alloc, keeper)?;
    continues(alloc, &mut kept, &checker, entries, count)
}

/// Whether the replica recovers from a crash after `count` events.
fn recovers_after(alloc: Global, entries: &[Entry], count: usize) -> Result<bool, Fail> {
    let keeper = stopped_after(alloc, entries, count, Vec::new(alloc), Vec::new(alloc))?;
    recovers(alloc, keeper, entries, count)
}

/// The first count of events after which it does not recover.
fn first_wrong_count(alloc: Global, entries: &[Entry]) -> Result<Option<usize>, Fail> {
    for count in 0..=entries.len() {
        if !recovers_after(alloc, entries, count)? {
            return Ok(Some(count));
        }
    }
    Ok(None)
}

fn after_any(alloc: Global) -> Result<Option<usize>, Fail> {
    let entries = entries(alloc)?;
    first_wrong_count(alloc, entries.as_slice())
}

#[test]
fn a_replica_recovers_after_any_event(rt: HostRuntime) -> Result<(), Fail> {
    assert_eq!(rt; after_any(rt.alloc())?, None);
    Ok(())
}

/// Whether the turn on an event seals a statement.
fn seals(entries: &[Entry], at: usize) -> bool {
    match entries.get(at) {
        Some(entry) => !entry.turned.sealed.as_slice().is_empty(),
        None => false,
    }
}

/// The log of a replica that crashed after `count` events.
pub(crate) fn log_after(alloc: Global, entries: &[Entry], count: usize) -> Result<Vec<u8>, Fail> {
    let keeper = stopped_after(alloc, entries, count, Vec::new(alloc), Vec::new(alloc))?;
    Ok(Vec::from_slice(alloc, keeper.bytes())?)
}

/// The size of the log of a replica that crashed after `count` events.
pub(crate) fn kept_after(alloc: Global, entries: &[Entry], count: usize) -> Result<usize, Fail> {
    let keeper = stopped_after(alloc, entries, count, Vec::new(alloc), Vec::new(alloc))?;
    Ok(keeper.bytes().len())
}

/// Whether a crash within the event that leaves `tail` bytes of its record recovers the state after `count` events.
fn recovers_with(alloc: Global, entries: &[Entry], tail: u64, count: usize) -> Result<bool, Fail> {
    // Three calls open the keeper and write the header, and each turn appends and syncs. This is the sync of that
    // event.
    let failing = vec![in alloc; 5 + 2 * WITHIN as u64]?;
    let keeper = stopped_after(alloc, entries, WITHIN + 1, failing, vec![in alloc; tail]?)?;
    recovers(alloc, keeper, entries, count)
}

/// The size of the event's record.
fn size_within(alloc: Global, entries: &[Entry]) -> Result<usize, Fail> {
    let before = kept_after(alloc, entries, WITHIN)?;
    Ok(kept_after(alloc, entries, WITHIN + 1)?.saturating_sub(before))
}

/// The first length of a torn record with which it does not recover.
fn first_wrong_tail(alloc: Global, entries: &[Entry], size: usize) -> Result<Option<usize>, Fail> {
    for tail in 0..size {
        if !recovers_with(alloc, entries, tail as u64, WITHIN)? {
            return Ok(Some(tail));
        }
    }
    Ok(None)
}

/// The results of crashes within the event.
struct Within {
    size: usize,
    seals: bool,
    wrong: Option<usize>,
    recovers_with_all: bool,
}

fn stopped_within(alloc: Global, entries: &[Entry]) -> Result<Within, Fail> {
    let size = size_within(alloc, entries)?;
    let wrong = first_wrong_tail(alloc, entries, size)?;
    let recovers_with_all = recovers_with(alloc, entries, size as u64, WITHIN + 1)?;
    Ok(Within {
        size,
        seals: seals(entries, WITHIN),
        wrong,
        recovers_with_all,
    })
}

fn outcome_within(alloc: Global) -> Result<Within, Fail> {
    let entries = entries(alloc)?;
    stopped_within(alloc, entries.as_slice())
}

#[test]
fn a_replica_recovers_within_an_event(rt: HostRuntime) -> Result<(), Fail> {
    let Within {
        size,
        seals,
        wrong,
        recovers_with_all,
    } = outcome_within(rt.alloc())?;
    assert!(rt; size > 80, "a record of {size} bytes");
    assert!(rt; seals);
    assert_eq!(rt; wrong, None);
    assert!(rt; recovers_with_all);
    Ok(())
}
