//! A run of five replicas, and the journal of the replica that crashes.
use node_core::{Entry, Event, Node, Turned};
use seal_kit::{Height, SealMaker, TagChecker, TagMaker, TagSealer};
use seq_base::{Outgoing, Packet, Setting, Tx, TxList};
use std::alloc::Global;
use std::collections::VecDeque;
use std::test::Fail;

/// The replica that crashes. It leads the first view.
pub(crate) const STOPPED: usize = 1;

/// A message that is sent and not delivered yet.
#[derive(Drop)]
struct Envelope {
    from: u32,
    to: u32,
    bytes: Packet,
}

/// Bytes instead of the digest of all replicas' public keys.
pub(crate) const KEYS: [u8; 32] = [7; 32];

pub(crate) fn checker(alloc: Global) -> Result<TagChecker, Fail> {
    Ok(TagMaker::new(alloc).make(7, Height::H5, 5)?.checker)
}

/// A new node, for one of five replicas.
pub(crate) fn node(alloc: Global, replica: usize) -> Result<Node<TagSealer>, Fail> {
    if replica >= 5 {
        return Err(Fail::new("no such replica"));
    }
    let setting = Setting::new(5, 1, 1, 1)?;
    let mut kit = TagMaker::new(alloc).make(7, Height::H5, 5)?;
    Ok(Node::new(alloc, setting, 6, kit.sealers.remove(replica))?)
}

/// The arrival of two transactions, in this order.
fn arrived(alloc: Global) -> Result<Event, Fail> {
    let tx = |client| Tx {
        client,
        number: 1,
        payload: 0,
    };
    Ok(Event::Arrived(TxList::of(vec![in alloc; tx(1), tx(2)]?)))
}

/// A run: its nodes, the messages that are not delivered yet, and the journal of the replica that crashes.
#[derive(Drop)]
struct Run {
    nodes: Vec<Node<TagSealer>>,
    queue: VecDeque<Envelope>,
    journal: Vec<Entry>,
}

fn send(queue: &mut VecDeque<Envelope>, from: u32, sends: &[Outgoing]) -> Result<(), Fail> {
    for sent in sends {
        queue.push_back(Envelope {
            from,
            to: sent.to,
            bytes: sent.bytes.share()?,
        })?;
    }
    Ok(())
}

fn turn_at(
    nodes: &mut [Node<TagSealer>],
    checker: &TagChecker,
    at: u32,
    event: &Event,
) -> Result<Turned, Fail> {
    let place = at as usize;
    if place >= nodes.len() {
        return Err(Fail::new("no such replica"));
    }
    Ok(nodes[place].turn(checker, event)?)
}

/// The turn of a replica on an event. Queues what it sends.
fn turn(run: &mut Run, checker: &TagChecker, at: u32, event: Event) -> Result<(), Fail> {
    let turned = turn_at(run.nodes.as_mut_slice(), checker, at, &event)?;
    send(&mut run.queue, at, turned.sends.as_slice())?;
    record(&mut run.journal, at, Entry { event, turned })
}

fn record(journal: &mut Vec<Entry>, at: u32, entry: Entry) -> Result<(), Fail> {
    if at as usize == STOPPED {
        journal.push(entry)?;
    }
    Ok(())
}

fn new_run(alloc: Global) -> Result<Run, Fail> {
    let mut nodes = Vec::new(alloc);
    for replica in 0..5 {
        nodes.push(node(alloc, replica)?)?;
    }
    Ok(Run {
        nodes,
        queue: VecDeque::new(alloc),
        journal: Vec::new(alloc),
    })
}

/// A run of five replicas without faults. Each has received the same two transactions and had one tick.
fn begun(alloc: Global, checker: &TagChecker) -> Result<Run, Fail> {
    let mut run = new_run(alloc)?;
    begin(alloc, &mut run, checker)?;
    Ok(run)
}

fn begin(alloc: Global, run: &mut Run, checker: &TagChecker) -> Result<(), Fail> {
    for replica in 0..5 {
        turn(run, checker, replica, arrived(alloc)?)?;
        turn(run, checker, replica, Event::Tick { floor: 0 })?;
    }
    Ok(())
}

/// Delivers the oldest message; false if there is none.
fn deliver(run: &mut Run, checker: &TagChecker) -> Result<bool, Fail> {
    match run.queue.pop_front() {
        Some(Envelope { from, to, bytes }) => {
            turn(run, checker, to, Event::Deliver { from, bytes })?;
            Ok(true)
        }
        None => Ok(false),
    }
}

fn deliver_all(run: &mut Run, checker: &TagChecker) -> Result<(), Fail> {
    for _ in 0..1000 {
        if !deliver(run, checker)? {
            return Ok(());
        }
    }
    Err(Fail::new("the run does not end"))
}

/// The node of the last replica after that run.
pub(crate) fn node_after(alloc: Global, checker: &TagChecker) -> Result<Node<TagSealer>, Fail> {
    let mut run = begun(alloc, checker)?;
    deliver_all(&mut run, checker)?;
    match run.nodes.pop() {
        Some(node) => Ok(node),
        None => Err(Fail::new("no replicas")),
    }
}

/// The journal of the replica that crashes, in a run that continues until all messages are delivered.
pub(crate) fn entries(alloc: Global) -> Result<Vec<Entry>, Fail> {
    let checker = checker(alloc)?;
    let mut run = begun(alloc, &checker)?;
    deliver_all(&mut run, &checker)?;
    Ok(run.journal)
}
