//! The rounds of a run.

ghost use Rattle.std.specs.Prelude.{◌≡◌, ◌≤◌, ◌<◌, ◌+◌, ◌*◌, ℕ, [], true, false, None, length, map, get_or, IfOk, OnOk, All};
ghost use Rattle.std.specs.List.{AllZip, fold};
ghost use Rattle.client_logs.specs.Clients.{OfClient};
ghost use Rattle.fault_script.specs.Sealing.{signers_of};
ghost use Rattle.node_core.specs.Reported.{Gives};
ghost use Rattle.plan_text.specs.Rules.{KeepsRules};
ghost use Rattle.replica_seat.specs.Arrivals.{IsArrivalList};
ghost use Rattle.replica_seat.specs.Seats.{AreReadable, meaning};
ghost use Rattle.round_rules.specs.Moments.{everyone};
ghost use Rattle.round_rules.specs.Ran.{Ran};
ghost use Rattle.thread_run.specs.Concluding.{Completes, HasEnded, WentOn};
ghost use Rattle.thread_run.specs.Going.{HasStopped, IsManned};
ghost use Rattle.thread_run.specs.Rounding.{Follows};
ghost use Rattle.thread_run.specs.Signers.{fresh_signers};
ghost use Rattle.thread_run.specs.Steps.{AnswersDone, AreCounted, HasFew, HasHeard, HasSubmitted, IsCounted, IsDecided, IsNext, IsStep, floor_by, holds_by, most_in, HasReported};
ghost use Rattle.thread_run.specs.declared.runs.Next.TheVariants.{Ends, Goes};

use crate::driver::Driver;
use crate::exchange::report_all;
use crate::finish::{clients_had_memory, record_of};
use crate::pairs::all_whole;
use crate::replica::Worker;
use crate::round::round;
use crate::start::start;
use crate::world::World;
use arrival_log::SharedLog;
use client_logs::Client;
use plan_text::Plan;
use round_rules::rounds_are_what_a_record_says;
use run_record::RunRecord;
use seal_kit::{Checker, Sealer};
use seq_base::{NoMemory, TxList};
use std::alloc::Global;
use std::sync::Wait;
use std::thread::Threads;

/// The state of a run between two rounds, with all workers.
#[derive(Drop)]
pub(crate) struct Run<S: Sealer> {
    pub(crate) alloc: Global,
    pub(crate) world: World,
    /// The workers of the replicas.
    pub(crate) workers: Vec<Worker<S>>,
    pub(crate) clients: Vec<Client>,
    /// The driver's state for each log.
    pub(crate) drivers: Vec<Driver>,
    pub(crate) due: TxList,
    pub(crate) turns: u32,
    pub(crate) ticks: u32,
}

/// How a run continues: it ends, or there is another round, with a tick or without.
#[derive(Clone, Copy)]
pub(crate) enum Next {
    Ends,
    Goes(Option<u32>),
}

/// Runs a plan in threads: each replica and each client is a worker, and all run concurrently, round after round. The
/// sealers and the checker are those of one kit that was made for the plan.
pub fn threads<S: Sealer, C: Checker, R: Threads + Wait + Sync>(
    rt: &R,
    alloc: Global,
    plan: &Plan,
    sealers: Vec<S>,
    checker: &C,
) -> Result<RunRecord, NoMemory>
    requires rules { KeepsRules plan.now }
    requires places { map (λ s. S.replica s) sealers.items ≡ everyone plan.now }
    requires room { All (λ s. 5 * plan.now.views ≤ S.capacity s) sealers.items }
    // With sealers that have made no seals, the record is that of a run in rounds.
    ensures ran { IfOk result (λ run. (gives : ℕ → Gives) (capacity : ℕ)
        → signers_of S.Sealer sealers.items ≡ fresh_signers plan.now gives capacity
        → Ran (C.meaning checker.now) plan.now gives capacity run) }
    ensures arrivals { IfOk result (λ run. (at : ℕ) → at < plan.now.setting.n → IsArrivalList (get_or run.arrivals at [])) }
    ensures readable { IfOk result (λ run. All (λ journal. AreReadable journal.entries) run.journals) }
{
    rounds_are_what_a_record_says();
    let mut run = start(alloc, plan, sealers)?;
    run.rounds(rt, plan, checker)?;
    run.let_clients_end(rt, plan)?;
    record_of(plan, run)
}

impl<S: Sealer> Run<S> {
    /// Makes rounds until the replicas stop.
    fn rounds<C: Checker, R: Threads + Wait + Sync>(
        &mut self,
        rt: &R,
        plan: &Plan,
        checker: &C,
    ) -> Result<(), NoMemory>
        requires rules { KeepsRules plan.now }
        requires manned { IsManned plan.now self.old }
        requires counted { IsCounted plan.now self.old }
        ensures manned { OnOk result (IsManned plan.now self.new) }
        ensures counted { OnOk result (IsCounted plan.now self.new) }
        ensures over { OnOk result (Follows (C.meaning checker.now) plan.now (meaning S.replica S.gives) self.old Ends self.new) }
    {
        let mut next = Next::Goes(None);
        for _ in rt.forever() {
            match next {
                Next::Ends => return Ok(()),
                Next::Goes(tick) => next = self.go_on(rt, plan, checker, tick)?,
            }
        }
        Ok(())
    }

    /// Submits what arrived, informs the workers, makes one round of all workers, and decides how the run continues.
    fn go_on<C: Checker, R: Threads + Wait + Sync>(
        &mut self,
        rt: &R,
        plan: &Plan,
        checker: &C,
        tick: Option<u32>,
    ) -> Result<Next, NoMemory>
        requires rules { KeepsRules plan.now }
        requires manned { IsManned plan.now self.old }
        requires counted { IsCounted plan.now self.old }
        ensures manned { OnOk result (IsManned plan.now self.new) }
        ensures counted { OnOk result (IsCounted plan.now self.new) }
        ensures follows { IfOk result (λ next. (first : Run S) → Follows (C.meaning checker.now) plan.now (meaning S.replica S.gives) first (Goes tick) self.old
            → Follows (C.meaning checker.now) plan.now (meaning S.replica S.gives) first next self.new) }
    {
        self.submit_until(rt, plan, self.turns)?;
        self.round(rt, plan, checker, tick)?;
        self.decide(rt, plan)
    }

    /// Submits what arrives by a count of turns, and informs the worker of each replica of all that was submitted to
    /// its log. Before that the driver is informed of what the workers have seen, so that what it submits comes after
    /// it.
    fn submit_until<R: Wait>(&mut self, rt: &R, plan: &Plan, turns: u32) -> Result<(), NoMemory>
        requires { IsManned plan.now self.old }
        ensures { OnOk result (HasHeard plan.now turns self.old self.new) }
    {
        self.report_workers(plan);
        self.submit_arrivals(rt, plan, turns)?;
        self.report_workers(plan);
        Ok(())
    }

    /// Informs each replica's worker of all that was submitted to its log, and the driver of all that the worker has
    /// seen.
    fn report_workers(&mut self, plan: &Plan)
        requires { IsManned plan.now self.old }
        ensures { HasReported plan.now self.old self.new }
    {
        report_all(
            &self.world,
            &mut self.drivers,
            self.workers.as_mut_slice(),
            self.clients.as_mut_slice(),
        );
    }

    /// Submits what arrives by a count of turns.
    fn submit_arrivals<R: Wait>(&mut self, rt: &R, plan: &Plan, turns: u32) -> Result<(), NoMemory>
        requires { IsManned plan.now self.old }
        ensures { OnOk result (HasSubmitted plan.now turns self.old self.new) }
    {
        let count = self.drivers.len();
        for at in 0..count {
            self.drivers[at].submit_until(rt, self.alloc, &self.world.logs[at], turns)?;
        }
        Ok(())
    }

    /// One round of all workers. Ends the run where one of them is out of memory.
    fn round<C: Checker, R: Threads + Wait + Sync>(
        &mut self,
        rt: &R,
        plan: &Plan,
        checker: &C,
        tick: Option<u32>,
    ) -> Result<(), NoMemory>
        requires rules { KeepsRules plan.now }
        requires manned { IsManned plan.now self.old }
        requires counted { IsCounted plan.now self.old }
        ensures step { OnOk result (IsStep (C.meaning checker.now) plan.now (meaning S.replica S.gives) tick self.old self.new) }
        ensures few { OnOk result (self.new.turns < plan.now.turns + 32 * plan.now.setting.n) }
    {
        let most = most_in(plan.turns, self.turns);
        round(
            rt,
            &self.world,
            plan,
            checker,
            tick,
            most,
            self.workers.as_mut_slice(),
            self.clients.as_mut_slice(),
        );
        self.turns = turns_of(self.workers.as_slice())?;
        clients_had_memory(self.clients.as_slice())
    }

    /// Decides how the run continues after a round.
    fn decide<R: Wait>(&mut self, rt: &R, plan: &Plan) -> Result<Next, NoMemory>
        requires rules { KeepsRules plan.now }
        requires manned { IsManned plan.now self.old }
        requires counted { IsCounted plan.now self.old }
        ensures { IfOk result (λ next. IsDecided plan.now next self.old self.new) }
    {
        let whole = all_whole(rt, &self.world, self.workers.as_mut_slice());
        if self.all_hold_due(plan)? || self.turns >= plan.turns {
            return Ok(Next::Ends);
        }
        Ok(self.next_round(plan, whole))
    }

    /// How a run continues where something is lacking: it waits for what is in flight, makes a tick once all was received,
    /// and ends once the ticks are used up.
    fn next_round(&mut self, plan: &Plan, whole: bool) -> Next
        ensures { IsNext plan.now whole result self.old self.new }
    {
        if !whole {
            return Next::Goes(None);
        }
        if self.ticks >= plan.ticks {
            return Next::Ends;
        }
        self.ticks += 1;
        Next::Goes(Some(floor_of(plan, self.workers.as_slice())))
    }

    /// Whether each honest replica's batches hold every due transaction.
    fn all_hold_due(&self, plan: &Plan) -> Result<bool, NoMemory>
        ensures { IfOk result (AnswersDone plan.now self.now) }
    {
        for worker in self.workers.as_slice() {
            if !holds_due(self.alloc, plan, &self.due, worker)? {
                return Ok(false);
            }
        }
        Ok(true)
    }

    /// Lets the clients continue until they are done, and submits the remaining arrivals.
    fn let_clients_end<R: Wait>(&mut self, rt: &R, plan: &Plan) -> Result<(), NoMemory>
        requires rules { KeepsRules plan.now }
        requires manned { IsManned plan.now self.old }
        ensures stopped { OnOk result (HasStopped plan.now self.new) }
        ensures on { OnOk result (WentOn self.old self.new) }
    {
        self.end_clients(rt, plan);
        self.submit_until(rt, plan, u32::MAX)
    }

    /// Lets the clients continue until they are done.
    fn end_clients<R: Wait>(&mut self, rt: &R, plan: &Plan)
        requires { IsManned plan.now self.old }
        ensures ended { HasEnded self.old self.new }
        ensures manned { IsManned plan.now self.new }
    {
        end_all(rt, &self.world, self.clients.as_mut_slice());
    }
}

/// The maximum of envelopes that a replica delivers in a round.
const MOST: u32 = 32;

/// The maximum of envelopes that a replica delivers in the next round: 0 where the turns are used up.
fn most_in(all: u32, turns: u32) -> u32
    ensures { result ≡ most_in all turns }
{
    if turns < all { MOST } else { 0 }
}

/// Each client continues until it is done.
fn end_all<R: Wait>(rt: &R, world: &World, clients: &mut [Client])
    requires of { All (OfClient world.now.logs.items) clients.old }
    ensures of { All (OfClient world.now.logs.items) clients.new }
    ensures ends { AllZip Completes clients.old clients.new }
{
    for at in 0..clients.len() {
        end_client(rt, world.logs.as_slice(), &mut clients[at]);
    }
}

/// Makes rounds of a client, with 64 transactions in each, until it is done.
fn end_client<R: Wait>(rt: &R, logs: &[SharedLog], client: &mut Client)
    requires of { OfClient logs.now client.old }
    ensures of { OfClient logs.now client.new }
    ensures ends { Completes client.old client.new }
{
    let rounds = client.count / 64 + 1;
    for round in 0..rounds {
        client.round(rt, logs);
    }
}

/// Whether the batches of a worker's node hold every due transaction. True for a faulty replica.
fn holds_due<S: Sealer>(
    alloc: Global,
    plan: &Plan,
    due: &TxList,
    worker: &Worker<S>,
) -> Result<bool, NoMemory>
    ensures { IfOk result (λ holds. holds ≡ holds_by plan.now.faulty due.now worker.now) }
{
    if plan.faulty.has(worker.at) {
        return Ok(true);
    }
    worker.seat.holds_due(alloc, due)
}

/// How many envelopes were delivered, or out of memory where a worker was.
fn turns_of<S: Sealer>(workers: &[Worker<S>]) -> Result<u32, NoMemory>
    requires few { length workers.now ≤ 32 }
    requires each { All (HasFew 1000000) workers.now }
    ensures { IfOk result (λ turns. AreCounted (length workers.now) turns workers.now) }
{
    let mut turns = 0;
    for at in 0..workers.len() {
        turns += turns_by(&workers[at])?;
    }
    Ok(turns)
}

/// How many envelopes a worker delivered, or out of memory where it was.
fn turns_by<S: Sealer>(worker: &Worker<S>) -> Result<u32, NoMemory>
    ensures { IfOk result (λ turns. (turns ≡ worker.now.turns) × (worker.now.failed ≡ false)) }
{
    if worker.failed {
        return Err(NoMemory);
    }
    Ok(worker.turns)
}

/// The greatest view of the honest replicas.
fn floor_of<S: Sealer>(plan: &Plan, workers: &[Worker<S>]) -> u32
    ensures { result ≡ fold (floor_by plan.now.faulty) 0 workers.now }
{
    let mut floor = 0;
    for worker in workers {
        floor = floor_by(plan, floor, worker);
    }
    floor
}

/// The greater of `floor` and the view of the worker's node. For a faulty replica it is `floor`.
fn floor_by<S: Sealer>(plan: &Plan, floor: u32, worker: &Worker<S>) -> u32
    ensures { result ≡ floor_by plan.now.faulty floor worker.now }
{
    if plan.faulty.has(worker.at) {
        return floor;
    }
    worker.seat.node.view().max(floor)
}
