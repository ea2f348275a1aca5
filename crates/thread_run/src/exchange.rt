//! How the driver and the workers inform one another between rounds.

ghost use Rattle.std.specs.Prelude.{◌<◌, ◌≤◌, length, get_or, All};
ghost use Rattle.std.specs.List.{AllZip};
ghost use mathlib.Core.List.{IsPrefix};
ghost use Rattle.client_logs.specs.Clients.{OfClient};
ghost use Rattle.locked_log.specs.History.{HasLooked, IsPassOf, Opened};
ghost use Rattle.thread_run.specs.Standing.{seen_at};
ghost use Rattle.thread_run.specs.Exchange.{AreSeated, DriverHears, HeardFirst, HoldsFirst, HoldsOf, IsDriverOf, ReportedAt, ReportedClient, ReportedFirst, ReportedWorker};
ghost use Rattle.thread_run.specs.Workers.{Ready};

use crate::driver::Driver;
use crate::replica::Worker;
use crate::world::World;
use arrival_log::LogPass;
use client_logs::Client;
use seal_kit::Sealer;

/// Informs the driver's pass of the log at a place of all that the client's pass has seen.
fn hear_one(world: &World, k: usize, driver: &mut LogPass, client: &mut Client)
    // The client and the driver have passes of these logs.
    requires of { OfClient world.now.logs.items client.old }
    requires place { k < length world.now.logs.items }
    requires driver { (d : Opened) → IsPassOf (get_or world.now.logs.items k d) driver.old }
    requires parts { 2 ≤ driver.old.parts }
    // Their passes have seen at least as much, and the driver has seen all that the client submitted to the log.
    ensures of { OfClient world.now.logs.items client.new }
    ensures hears { ReportedClient client.old client.new }
    ensures heard { HasLooked driver.old driver.new }
    ensures holds { HoldsOf driver.new.seen client.new }
{
    client.report(world.logs.as_slice(), k, driver)
}

/// Informs the worker's pass of all that the driver's has seen, and the driver's of all that the worker's has seen.
fn report_one<S: Sealer>(world: &World, driver: &mut LogPass, worker: &mut Worker<S>)
    // The worker and the driver have passes of the worker's log.
    requires ready { Ready world.now.logs.items world.now.boxes.items worker.old }
    requires driver { (d : Opened) → IsPassOf (get_or world.now.logs.items worker.old.at d) driver.old }
    requires parts { 2 ≤ driver.old.parts }
    // Their passes have seen at least as much, and both the same.
    ensures ready { Ready world.now.logs.items world.now.boxes.items worker.new }
    ensures hears { ReportedWorker worker.old worker.new }
    ensures heard { HasLooked driver.old driver.new }
    ensures seen { IsPrefix driver.old.seen worker.new.log.seen }
    ensures back { IsPrefix worker.new.log.seen driver.new.seen }
{
    worker.listen(world, driver)
}

/// Informs the driver's pass of the log at a place of all that the clients have seen of the log.
fn hear_all(world: &World, k: usize, driver: &mut LogPass, clients: &mut [Client])
    // The clients and the driver have passes of these logs.
    requires of { All (OfClient world.now.logs.items) clients.old }
    requires place { k < length world.now.logs.items }
    requires driver { (d : Opened) → IsPassOf (get_or world.now.logs.items k d) driver.old }
    requires parts { 2 ≤ driver.old.parts }
    // Their passes have seen at least as much, and the driver has seen all that the clients submitted to the log.
    ensures of { All (OfClient world.now.logs.items) clients.new }
    ensures hears { AllZip ReportedClient clients.old clients.new }
    ensures heard { HasLooked driver.old driver.new }
    ensures holds { HoldsFirst (length clients.new) driver.new.seen clients.new }
{
    for at in 0..clients.len() {
        hear_one(world, k, driver, &mut clients[at]);
    }
}

/// Informs the worker of the replica at a place of all that the driver and the clients have submitted to its log, and
/// the driver of all that the worker has seen.
fn report_log<S: Sealer>(
    world: &World,
    k: usize,
    driver: &mut LogPass,
    workers: &mut [Worker<S>],
    clients: &mut [Client],
)
    // The workers and the driver have passes of these logs, and each replica's worker stands at its place.
    requires ready { All (Ready world.now.logs.items world.now.boxes.items) workers.old }
    requires of { All (OfClient world.now.logs.items) clients.old }
    requires place { (k < length world.now.logs.items) × (k < length workers.old) }
    requires driver { (d : Opened) → IsPassOf (get_or world.now.logs.items k d) driver.old }
    requires parts { 2 ≤ driver.old.parts }
    requires seats { AreSeated workers.old }
    // Their passes have seen at least as much.
    ensures ready { All (Ready world.now.logs.items world.now.boxes.items) workers.new }
    ensures of { All (OfClient world.now.logs.items) clients.new }
    ensures hears { AllZip ReportedWorker workers.old workers.new }
    ensures clients { AllZip ReportedClient clients.old clients.new }
    ensures heard { HasLooked driver.old driver.new }
    // The worker has seen what was submitted to its log, and the driver what the worker had seen.
    ensures reported { ReportedAt k driver.old.seen workers.new clients.new }
    ensures back { IsPrefix (seen_at workers.old k) driver.new.seen }
{
    hear_all(world, k, driver, clients);
    report_one(world, driver, &mut workers[k]);
}

/// Informs the worker of each replica of all that the driver and the clients have submitted to its log, and the driver
/// of all that the worker has seen.
pub(crate) fn report_all<S: Sealer>(
    world: &World,
    drivers: &mut Vec<Driver>,
    workers: &mut [Worker<S>],
    clients: &mut [Client],
)
    // The workers and the driver have passes of these logs, and each replica's worker stands at its place.
    requires ready { All (Ready world.now.logs.items world.now.boxes.items) workers.old }
    requires of { All (OfClient world.now.logs.items) clients.old }
    requires drivers { AllZip IsDriverOf world.now.logs.items drivers.old.items }
    requires places { length world.now.logs.items ≤ length workers.old }
    requires seats { AreSeated workers.old }
    // Their passes have seen at least as much.
    ensures ready { All (Ready world.now.logs.items world.now.boxes.items) workers.new }
    ensures of { All (OfClient world.now.logs.items) clients.new }
    ensures hears { AllZip ReportedWorker workers.old workers.new }
    ensures clients { AllZip ReportedClient clients.old clients.new }
    ensures drivers { AllZip DriverHears drivers.old.items drivers.new.items }
    ensures own { AllZip IsDriverOf world.now.logs.items drivers.new.items }
    // Each worker has seen what was submitted to its log, and the driver what the worker had seen.
    ensures reported { ReportedFirst (length drivers.new.items) drivers.old.items workers.new clients.new }
    ensures heard { HeardFirst (length drivers.new.items) workers.old drivers.new.items }
{
    let count = drivers.len();
    for k in 0..count {
        report_log(world, k, &mut drivers[k].pass, workers, clients);
    }
}
