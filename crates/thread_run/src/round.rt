//! One round of all workers.

ghost use Rattle.std.specs.Prelude.{◌≤◌, All};
ghost use Rattle.std.specs.List.{AllZip};
ghost use denote.Param.Send.{IsSend, IsSync};
ghost use Rattle.client_logs.specs.Clients.{OfClient};
ghost use Rattle.replica_seat.specs.Seats.{meaning};
ghost use Rattle.thread_run.specs.News.{Took};
ghost use Rattle.thread_run.specs.Workers.{ClientWorked, DeliversFew, Drained, Ready, Worked};

use crate::news::hear_all;
use crate::replica::Worker;
use crate::world::World;
use client_logs::Client;
use mailbox::what_was_heard_was_taken;
use plan_text::Plan;
use seal_kit::{Checker, Sealer};
use std::sync::Wait;
use std::thread;
use std::thread::Threads;

/// One round of all workers. Each replica is informed of what was sent to its mailbox, and delivers at most `most`
/// envelopes.
pub(crate) fn round<S: Sealer, C: Checker, R: Threads + Wait + Sync>(
    rt: &R,
    world: &World,
    plan: &Plan,
    checker: &C,
    tick: Option<u32>,
    most: u32,
    workers: &mut [Worker<S>],
    clients: &mut [Client],
)
    // The workers have passes of these logs and mailboxes.
    requires ready { All (Ready world.now.logs.items world.now.boxes.items) workers.old }
    requires of { All (OfClient world.now.logs.items) clients.old }
    requires few { most ≤ 32 }
    // What each replica's worker did, and what each client.
    ensures worked { AllZip (Worked (C.meaning checker.now) plan.now (meaning S.replica S.gives) world.now.logs.items world.now.boxes.items tick)
        workers.old workers.new }
    ensures few { AllZip (DeliversFew most) workers.old workers.new }
    ensures took { AllZip (Took most workers.old) workers.old workers.new }
    ensures went { AllZip (ClientWorked world.now.logs.items) clients.old clients.new }
{
    what_was_heard_was_taken();
    hear_all(world, workers);
    turn_all(rt, world, plan, checker, tick, most, workers, clients);
}

/// The round of all workers concurrently, each in a thread, after they were informed.
fn turn_all<S: Sealer, C: Checker, R: Threads + Wait + Sync>(
    rt: &R,
    world: &World,
    plan: &Plan,
    checker: &C,
    tick: Option<u32>,
    most: u32,
    workers: &mut [Worker<S>],
    clients: &mut [Client],
)
    // The workers have passes of these logs and mailboxes.
    requires ready { All (Ready world.now.logs.items world.now.boxes.items) workers.old }
    requires of { All (OfClient world.now.logs.items) clients.old }
    requires few { most ≤ 32 }
    // What each replica's worker did, and what each client.
    ensures worked { AllZip (Worked (C.meaning checker.now) plan.now (meaning S.replica S.gives) world.now.logs.items world.now.boxes.items tick)
        workers.old workers.new }
    ensures few { AllZip (DeliversFew most) workers.old workers.new }
    ensures drained { AllZip (Drained most) workers.old workers.new }
    ensures went { AllZip (ClientWorked world.now.logs.items) clients.old clients.new }
{
    let mut replicas = ||
        requires { IsSync R.row × IsSync C.row × IsSend S.row × All (Ready world.now.logs.items world.now.boxes.items) workers.now × (most ≤ 32) }
        ensures worked { AllZip (Worked (C.meaning checker.entry.now) plan.entry.now
            (meaning S.replica S.gives) world.entry.now.logs.items world.entry.now.boxes.items tick) workers.entry.now workers.exit.now }
        ensures few { AllZip (DeliversFew most) workers.entry.now workers.exit.now }
        ensures drained { AllZip (Drained most) workers.entry.now workers.exit.now }
    { turn_replicas(rt, world, plan, checker, tick, most, workers) };
    let mut submitters = ||
        requires { IsSync R.row × All (OfClient world.now.logs.items) clients.now }
        ensures { AllZip (ClientWorked world.entry.now.logs.items) clients.entry.now clients.exit.now }
    { turn_clients(rt, world, clients) };
    thread::join_mut(rt, &mut replicas, &mut submitters);
}

/// The round of each replica's worker, in its own thread.
fn turn_replicas<S: Sealer, C: Checker, R: Threads + Wait + Sync>(
    rt: &R,
    world: &World,
    plan: &Plan,
    checker: &C,
    tick: Option<u32>,
    most: u32,
    workers: &mut [Worker<S>],
)
    requires ready { All (Ready world.now.logs.items world.now.boxes.items) workers.old }
    requires few { most ≤ 32 }
    ensures worked { AllZip (Worked (C.meaning checker.now) plan.now (meaning S.replica S.gives) world.now.logs.items world.now.boxes.items tick)
        workers.old workers.new }
    ensures few { AllZip (DeliversFew most) workers.old workers.new }
    ensures drained { AllZip (Drained most) workers.old workers.new }
{
    let threads = workers.len();
    if threads > 0 {
        thread::for_each_mut(
            rt,
            workers,
            threads,
            &|_, worker: &mut Worker<S>|
                requires ready { Ready world.now.logs.items world.now.boxes.items worker.now }
                requires few { most ≤ 32 }
                ensures worked { Worked (C.meaning checker.entry.now) plan.entry.now
                    (meaning S.replica S.gives) world.entry.now.logs.items world.entry.now.boxes.items tick worker.entry.now worker.exit.now }
                ensures few { DeliversFew most worker.entry.now worker.exit.now }
                ensures drained { Drained most worker.entry.now worker.exit.now }
            { worker.round(rt, world, plan, checker, tick, most) },
        );
    }
}

/// The round of each client, in its own thread.
fn turn_clients<R: Threads + Wait + Sync>(rt: &R, world: &World, clients: &mut [Client])
    requires { All (OfClient world.now.logs.items) clients.old }
    ensures { AllZip (ClientWorked world.now.logs.items) clients.old clients.new }
{
    let threads = clients.len();
    if threads > 0 {
        thread::for_each_mut(
            rt,
            clients,
            threads,
            &|_, client: &mut Client|
                requires { OfClient world.now.logs.items client.now }
                ensures { ClientWorked world.entry.now.logs.items client.entry.now client.exit.now }
            { client.round(rt, world.logs.as_slice()) },
        );
    }
}
