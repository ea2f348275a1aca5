//! The record of a run that ended.

ghost use Rattle.std.specs.Prelude.{◌≡◌, ◌<◌, ◌∷◌, ◌++◌, ℕ, [], map, length, slice_get, remove, IfOk, OnOk, All};
ghost use Rattle.std.specs.Option.{option_to_list};
ghost use Rattle.node_core.specs.Rows.{Check};
ghost use Rattle.node_core.specs.Reported.{Gives};
ghost use Rattle.plan_text.specs.Rules.{KeepsRules};
ghost use Rattle.replica_seat.specs.Seats.{AreReadable, meaning};
ghost use Rattle.round_rules.specs.Ran.{AreShown};
ghost use Rattle.thread_run.specs.Going.{HasStopped, Shows};
ghost use Rattle.thread_run.specs.Standing.{AllStand, journals_at};
ghost use Rattle.locked_log.specs.History.{IsPassOf};
ghost use Rattle.thread_run.specs.Finishing.{AreAllPasses, AreFinished, CanFinish, HadMemory, HasJoined, IsListOf, column, later_columns, rows_of};

use crate::driver::Driver;
use crate::replica::Worker;
use crate::runs::Run;
use crate::world::World;
use arrival_log::{LogPass, SharedLog, SubmitFault};
use client_logs::{Client, shared_logs_are_merges};
use plan_text::Plan;
use replica_seat::{Seat, batches_of, heads_of, journals_of};
use run_record::RunRecord;
use seal_kit::Sealer;
use seq_base::{NoMemory, TxList, TxLists};
use std::alloc::Global;

/// The replicas' workers, taken apart.
#[derive(Drop)]
struct WorkersApart<S: Sealer> {
    seats: Vec<Seat<S>>,
    own: Vec<LogPass>,
}

/// Returns the record of a run that ended.
pub(crate) fn record_of<S: Sealer>(plan: &Plan, run: Run<S>) -> Result<RunRecord, NoMemory>
    requires stopped { HasStopped plan.now run }
    requires rules { KeepsRules plan.now }
    ensures shows { IfOk result (λ shown. Shows plan.now run shown) }
    ensures shown { IfOk result (λ shown. (fits : Check) (gives : ℕ → Gives) (capacity : ℕ)
        → AllStand fits plan.now (meaning S.replica S.gives) gives capacity run.workers.items
        → AreShown fits plan.now gives capacity shown (journals_at run.workers.items)) }
    ensures readable { IfOk result (λ shown. All (λ journal. AreReadable journal.entries) shown.journals) }
{
    shared_logs_are_merges();
    let Run {
        alloc,
        world,
        workers,
        clients,
        drivers,
        turns,
        ticks,
        ..
    } = run;
    let WorkersApart { seats, own } = apart(alloc, workers)?;
    drivers_had_memory(drivers.as_slice())?;
    clients_had_memory(clients.as_slice())?;
    let World { logs, .. } = world;
    let arrivals = finished(alloc, logs, drivers, own, clients)?;
    let heads = heads_of(alloc, seats.as_slice())?;
    let batches = batches_of(alloc, seats.as_slice())?;
    let journals = journals_of(alloc, seats)?;
    Ok(RunRecord {
        setting: plan.setting,
        faulty: plan.faulty,
        arrivals,
        journals,
        heads,
        batches,
        turns,
        ticks,
    })
}

/// The seats of the replicas' workers, and their passes of the logs.
fn apart<S: Sealer>(alloc: Global, workers: Vec<Worker<S>>) -> Result<WorkersApart<S>, NoMemory>
    ensures seats { IfOk result (λ a. a.seats.items ≡ map (λ w. w.seat) workers.items) }
    ensures own { IfOk result (λ a. a.own.items ≡ map (λ w. w.log) workers.items) }
{
    let mut apart = WorkersApart {
        seats: Vec::new(alloc),
        own: Vec::new(alloc),
    };
    take_all(&mut apart, workers)?;
    Ok(apart)
}

/// Takes each worker apart.
fn take_all<S: Sealer>(apart: &mut WorkersApart<S>, workers: Vec<Worker<S>>) -> Result<(), NoMemory>
    ensures seats { OnOk result (apart.new.seats.items ≡ apart.old.seats.items ++ map (λ w. w.seat) workers.items) }
    ensures own { OnOk result (apart.new.own.items ≡ apart.old.own.items ++ map (λ w. w.log) workers.items) }
{
    for worker in workers {
        take_one(apart, worker)?;
    }
    Ok(())
}

fn take_one<S: Sealer>(apart: &mut WorkersApart<S>, worker: Worker<S>) -> Result<(), NoMemory>
    ensures seats { OnOk result (apart.new.seats.items ≡ apart.old.seats.items ++ worker.seat ∷ []) }
    ensures own { OnOk result (apart.new.own.items ≡ apart.old.own.items ++ worker.log ∷ []) }
{
    let Worker { seat, log, .. } = worker;
    apart.seats.push(seat)?;
    apart.own.push(log)?;
    Ok(())
}

/// Ends the run where a log was out of memory for what the driver submitted.
#[tactic(auto, using(crate::proofs::ListUpdates::all_more, crate::proofs::ListUpdates::all_taken))]
fn drivers_had_memory(drivers: &[Driver]) -> Result<(), NoMemory>
    ensures { OnOk result (All (λ d. HadMemory d.fault) drivers.now) }
{
    let count = drivers.len();
    for at in 0..count {
        had_memory(drivers[at].fault)?;
    }
    Ok(())
}

/// Ends the run where a log was out of memory for what a client submitted.
#[tactic(auto, using(crate::proofs::ListUpdates::all_more, crate::proofs::ListUpdates::all_taken))]
pub(crate) fn clients_had_memory(clients: &[Client]) -> Result<(), NoMemory>
    ensures { OnOk result (All (λ c. HadMemory c.fault) clients.now) }
{
    let count = clients.len();
    for at in 0..count {
        had_memory(clients[at].fault)?;
    }
    Ok(())
}

/// Fails where a log refused a transaction because it was out of memory.
fn had_memory(fault: Option<SubmitFault>) -> Result<(), NoMemory>
    ensures { OnOk result (HadMemory fault) }
{
    match fault {
        Some(SubmitFault::NoMemory) => Err(NoMemory),
        Some(SubmitFault::Full) => Ok(()),
        None => Ok(()),
    }
}

/// The lists of the logs, once all passes of each are joined.
fn finished(
    alloc: Global,
    logs: Vec<SharedLog>,
    drivers: Vec<Driver>,
    own: Vec<LogPass>,
    clients: Vec<Client>,
) -> Result<TxLists, NoMemory>
    requires { CanFinish logs.items drivers.items own.items (rows_of clients.items) }
    ensures count { IfOk result (λ lists. length lists ≡ length logs.items) }
    ensures lists { IfOk result (λ lists. AreFinished drivers.items own.items (rows_of clients.items) lists) }
{
    let mut logs = logs;
    let mut drivers = drivers;
    let mut own = own;
    let mut clients = clients;
    let mut lists = Vec::new(alloc);
    'left: while !logs.is_empty() {
        let log = logs.remove(0);
        let driver = drivers.remove(0);
        let worker = own.remove(0);
        lists.push(list_of(alloc, log, driver, worker, &mut clients)?)?;
    }
    Ok(TxLists::of(lists))
}

/// The list of a log, once the worker's pass and the first pass of each client are joined into the driver's.
fn list_of(
    alloc: Global,
    log: SharedLog,
    driver: Driver,
    worker: LogPass,
    clients: &mut Vec<Client>,
) -> Result<TxList, NoMemory>
    requires passes { AreAllPasses log (driver.pass ∷ worker ∷ column 0 (rows_of clients.old.items)) }
    requires rows { All (λ row. 0 < length row) (rows_of clients.old.items) }
    ensures list { IfOk result (λ list. IsListOf (driver.pass ∷ worker ∷ column 0 (rows_of clients.old.items)) list) }
    ensures rest { rows_of clients.new.items ≡ later_columns (rows_of clients.old.items) }
{
    let Driver { mut pass, .. } = driver;
    log.join(&mut pass, worker);
    join_clients(&log, &mut pass, clients);
    log.finish(pass).txs(alloc)
}

/// Joins the first pass of each client into another pass.
fn join_clients(log: &SharedLog, pass: &mut LogPass, clients: &mut Vec<Client>)
    requires own { IsPassOf log.now pass.old }
    requires passes { All (IsPassOf log.now) (column 0 (rows_of clients.old.items)) }
    requires rows { All (λ row. 0 < length row) (rows_of clients.old.items) }
    ensures joined { HasJoined (column 0 (rows_of clients.old.items)) pass.old pass.new }
    ensures rest { rows_of clients.new.items ≡ later_columns (rows_of clients.old.items) }
{
    let count = clients.len();
    for k in 0..count {
        join_client(log, pass, &mut clients[k]);
    }
}

/// Joins the client's first pass into another pass.
fn join_client(log: &SharedLog, pass: &mut LogPass, client: &mut Client)
    requires own { IsPassOf log.now pass.old }
    requires passes { All (IsPassOf log.now) (option_to_list (slice_get client.old.passes.items 0)) }
    requires row { 0 < length client.old.passes.items }
    ensures joined { HasJoined (option_to_list (slice_get client.old.passes.items 0)) pass.old pass.new }
    ensures rest { client.new.passes.items ≡ remove client.old.passes.items 0 }
{
    log.join(pass, client.passes.remove(0));
}
