//! The start of a threaded run: a log, a mailbox and a worker for each replica, and a worker for each client.

ghost use Rattle.std.specs.Prelude.{◌≡◌, ◌+◌, ◌*◌, ◌<◌, ◌≤◌, [], map, length, IfOk, OnOk, All};
ghost use Rattle.std.specs.List.{AllZip, range_with_len};
ghost use Rattle.fault_script.specs.Sealing.{signers_of};
ghost use Rattle.mailbox.specs.Boxes.{receiver_in};
ghost use Rattle.plan_text.specs.Rules.{KeepsRules};
ghost use Rattle.replica_seat.specs.Seats.{meaning};
ghost use Rattle.round_rules.specs.Moments.{everyone};
ghost use Rattle.locked_log.specs.History.{given, giving};
ghost use Rattle.thread_run.specs.Finishing.{column, later_columns};
ghost use Rattle.thread_run.specs.Starting.{HasTwo, IsDealt, IsNewClient, drivers_from, pass_with, rows_in, worker_with, workers_from};
ghost use Rattle.thread_run.specs.Steps.{Begins};

use crate::driver::Driver;
use crate::replica::Worker;
use crate::runs::Run;
use crate::world::World;
use arrival_log::{LogPass, SharedLog};
use client_logs::Client;
use mailbox::{Mailbox, SendPass, TakePass};
use plan_text::{Arrival, Client as Sender, Plan};
use replica_seat::{Feed, Pool, Seat, due_among, seats_of};
use seal_kit::Sealer;
use seq_base::NoMemory;
use std::alloc::Global;

/// The parts of a log, without one for each client. One is for the worker of its replica. Two are for the driver,
/// because a pass that informs another needs two parts.
const PARTS: u32 = 3;

/// All workers before round 0, and what they share.
pub(crate) fn start<S: Sealer>(
    alloc: Global,
    plan: &Plan,
    sealers: Vec<S>,
) -> Result<Run<S>, NoMemory>
    // The sealers are those of one kit that was made for the plan.
    requires rules { KeepsRules plan.now }
    requires places { map (λ s. S.replica s) sealers.items ≡ everyone plan.now }
    requires room { All (λ s. 5 * plan.now.views ≤ S.capacity s) sealers.items }
    ensures { IfOk result (Begins plan.now (meaning S.replica S.gives) (signers_of S.Sealer sealers.items)) }
{
    let seats = seats_of(alloc, plan, sealers)?;
    let due = due_among(alloc, plan, seats.as_slice())?;
    let n = plan.setting.n();
    let senders = plan.clients.as_slice();
    let Opened {
        logs,
        own,
        mut mains,
    } = open_logs(alloc, n, senders.len() as u32)?;
    let clients = clients_of(alloc, senders, logs.as_slice(), &mut mains)?;
    let drivers = drivers_of(alloc, plan.arrivals.as_slice(), mains)?;
    let Boxed {
        boxes,
        takes,
        passes,
    } = open_boxes(alloc, n)?;
    let sends = sends_of(alloc, n, passes)?;
    let workers = workers_of(alloc, seats, own, takes, sends)?;
    Ok(Run {
        alloc,
        world: World { logs, boxes },
        workers,
        clients,
        drivers,
        due,
        turns: 0,
        ticks: 0,
    })
}

/// A log for each replica, the pass of its worker, and a pass with all other parts.
#[derive(Drop)]
struct Opened {
    logs: Vec<SharedLog>,
    own: Vec<LogPass>,
    mains: Vec<LogPass>,
}

/// Opens a log for each replica, with a part for each client.
fn open_logs(alloc: Global, n: u32, clients: u32) -> Result<Opened, NoMemory>
    requires { clients ≤ 16 }
    ensures count { IfOk result (λ o. length o.logs.items ≡ n) }
    ensures parts { IfOk result (λ o. All (λ log. log.parts ≡ clients + 3) o.logs.items) }
    ensures own { IfOk result (λ o. o.own.items ≡ map (pass_with 1) o.logs.items) }
    ensures mains { IfOk result (λ o. o.mains.items ≡ map (pass_with (clients + 2)) o.logs.items) }
{
    let mut logs = Vec::new(alloc);
    let mut own = Vec::new(alloc);
    let mut mains = Vec::new(alloc);
    for at in 0..n {
        let (log, mut pass) = SharedLog::start(alloc, clients + PARTS)?;
        own.push(log.split(&mut pass))?;
        mains.push(pass)?;
        logs.push(log)?;
    }
    Ok(Opened { logs, own, mains })
}

/// The clients of a plan, each with a pass of each log.
fn clients_of(
    alloc: Global,
    senders: &[Sender],
    logs: &[SharedLog],
    mains: &mut Vec<LogPass>,
) -> Result<Vec<Client>, NoMemory>
    requires { mains.old.items ≡ map (pass_with (length senders.now + 2)) logs.now }
    ensures mains { OnOk result (mains.new.items ≡ map (pass_with 2) logs.now) }
    ensures clients { IfOk result (λ clients. AllZip (IsNewClient logs.now) senders.now clients.items) }
{
    let mut clients = Vec::new(alloc);
    let count = senders.len();
    for at in 0..count {
        let passes = passes_for(alloc, logs, mains)?;
        let sender = senders[at];
        clients.push(Client::new(sender.id, sender.count, passes))?;
    }
    Ok(clients)
}

/// A part of each log.
fn passes_for(
    alloc: Global,
    logs: &[SharedLog],
    mains: &mut Vec<LogPass>,
) -> Result<Vec<LogPass>, NoMemory>
    requires { AllZip HasTwo logs.now mains.old.items }
    ensures gave { OnOk result (mains.new.items ≡ map giving mains.old.items) }
    ensures given { IfOk result (λ passes. passes.items ≡ map given mains.old.items) }
{
    let mut passes = Vec::new(alloc);
    let count = logs.len();
    for k in 0..count {
        let one = logs[k].split(&mut mains[k]);
        passes.push(one)?;
    }
    Ok(passes)
}

/// The driver's state for each log: its pass, and what arrives at the replica.
fn drivers_of(
    alloc: Global,
    arrivals: &[Arrival],
    mains: Vec<LogPass>,
) -> Result<Vec<Driver>, NoMemory>
    requires { length mains.items ≤ 16 }
    ensures { IfOk result (λ drivers. drivers.items ≡ drivers_from arrivals.now 0 mains.items) }
{
    let mut mains = mains;
    let mut drivers = Vec::new(alloc);
    let mut at = 0;
    'left: while !mains.is_empty() {
        let pass = mains.remove(0);
        let feed = Feed::of_arrivals(alloc, arrivals, at)?;
        drivers.push(Driver {
            pass,
            feed,
            fault: None,
        })?;
        at += 1;
    }
    Ok(drivers)
}

/// A mailbox for each replica, the pass of its receiver, and a pass for each sender.
#[derive(Drop)]
struct Boxed {
    boxes: Vec<Mailbox>,
    takes: Vec<TakePass>,
    passes: Vec<Vec<SendPass>>,
}

/// Opens a mailbox for each of n replicas, each with n senders.
fn open_boxes(alloc: Global, n: u32) -> Result<Boxed, NoMemory>
    requires { (1 ≤ n) × (n ≤ 16) }
    ensures count { IfOk result (λ b. length b.boxes.items ≡ n) }
    ensures senders { IfOk result (λ b. All (λ x. x.senders ≡ n) b.boxes.items) }
    ensures takes { IfOk result (λ b. b.takes.items ≡ map (λ x. receiver_in x []) b.boxes.items) }
    ensures passes { IfOk result (λ b. AllZip (IsDealt n) b.boxes.items (rows_in b.passes.items)) }
{
    let mut boxes = Vec::new(alloc);
    let mut takes = Vec::new(alloc);
    let mut passes = Vec::new(alloc);
    for at in 0..n {
        let (inbox, senders, take) = Mailbox::start(alloc, n)?;
        boxes.push(inbox)?;
        takes.push(take)?;
        passes.push(senders)?;
    }
    Ok(Boxed {
        boxes,
        takes,
        passes,
    })
}

/// For each of n replicas its passes of all mailboxes.
fn sends_of(
    alloc: Global,
    n: u32,
    passes: Vec<Vec<SendPass>>,
) -> Result<Vec<Vec<SendPass>>, NoMemory>
    requires { All (λ row. length row ≡ n) (rows_in passes.items) }
    ensures { IfOk result (λ sends. rows_in sends.items ≡ map (λ k. column k (rows_in passes.items)) (range_with_len 0 n)) }
{
    let mut passes = passes;
    let mut sends = Vec::new(alloc);
    for at in 0..n {
        sends.push(first_of_each(alloc, &mut passes)?)?;
    }
    Ok(sends)
}

/// Removes the first pass of each row and returns them.
fn first_of_each(alloc: Global, passes: &mut Vec<Vec<SendPass>>) -> Result<Vec<SendPass>, NoMemory>
    requires { All (λ row. 0 < length row) (rows_in passes.old.items) }
    ensures first { IfOk result (λ first. first.items ≡ column 0 (rows_in passes.old.items)) }
    ensures rest { OnOk result (rows_in passes.new.items ≡ later_columns (rows_in passes.old.items)) }
{
    let mut first = Vec::new(alloc);
    let count = passes.len();
    for k in 0..count {
        first.push(passes[k].remove(0))?;
    }
    Ok(first)
}

/// The workers of the replicas.
fn workers_of<S: Sealer>(
    alloc: Global,
    seats: Vec<Seat<S>>,
    own: Vec<LogPass>,
    takes: Vec<TakePass>,
    sends: Vec<Vec<SendPass>>,
) -> Result<Vec<Worker<S>>, NoMemory>
    requires few { length seats.items ≤ 16 }
    requires own { length own.items ≡ length seats.items }
    requires takes { length takes.items ≡ length seats.items }
    requires sends { length sends.items ≡ length seats.items }
    ensures { IfOk result (λ workers. workers.items ≡ workers_from 0 seats.items own.items takes.items (rows_in sends.items)) }
{
    let mut seats = seats;
    let mut own = own;
    let mut takes = takes;
    let mut sends = sends;
    let mut workers = Vec::new(alloc);
    let mut at = 0;
    'left: while !seats.is_empty() {
        let seat = seats.remove(0);
        let log = own.remove(0);
        let take = takes.remove(0);
        let row = sends.remove(0);
        workers.push(new_worker(alloc, at, seat, log, take, row))?;
        at += 1;
    }
    Ok(workers)
}

/// A worker that has done nothing.
fn new_worker<S: Sealer>(
    alloc: Global,
    at: u32,
    seat: Seat<S>,
    log: LogPass,
    take: TakePass,
    sends: Vec<SendPass>,
) -> Worker<S>
    ensures { result ≡ worker_with at seat log take sends.items }
{
    Worker {
        alloc,
        at,
        seat,
        pool: Pool::new(alloc),
        log,
        known: 0,
        take,
        sends,
        turns: 0,
        failed: false,
    }
}
