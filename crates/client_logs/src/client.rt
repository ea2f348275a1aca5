//! The worker of one client.

ghost use Rattle.std.specs.Prelude.{◌≡◌, ◌+◌, ◌<◌, ◌≤◌, List, Some, None, OnOk, length, slice_set, get_or, min, Ok, Err, All};
ghost use Rattle.std.specs.List.{AllZip};
ghost use mathlib.Core.List.{IsPrefix};
ghost use Rattle.locked_log.specs.History.{HasLooked, IsPassOf, Known, Opened};
ghost use Rattle.seq_base.specs.declared.tx.Tx.{Tx};
ghost use Rattle.arrival_log.specs.Arrivals.{HasSubmitted, IsArrivals};
ghost use Rattle.arrival_log.specs.declared.log.SubmitFault.TheVariants.{Full};
ghost use Rattle.client_logs.specs.Clients.{ByFirst, IsFresh, MaySubmit, OfClient, SeenMore, SomeFull};

use arrival_log::{LogPass, Placed, SharedLog, SubmitFault};
use seq_base::Tx;
use std::sync::Wait;

/// The maximum number of transactions that a client submits in a round.
const MOST: u32 = 64;

/// The worker of a client, which submits its transactions to every log, one after another.
pub struct Client {
    pub id: u32,
    /// The number of its transactions, which are numbered from 1.
    pub count: u32,
    /// How many of them every log holds.
    pub next: u32,
    /// A pass for each log.
    pub passes: Vec<LogPass>,
    /// Why a log refused the next one.
    pub fault: Option<SubmitFault>,
}

impl Drop for Client {
    fn drop(self) {
        let Client {
            id: _,
            count: _,
            next: _,
            passes: _,
            fault: _,
        } = self;
    }
}

/// Submits a transaction with the pass at an index.
fn submit_at<R: Wait>(
    rt: &R,
    logs: &[SharedLog],
    passes: &mut Vec<LogPass>,
    k: usize,
    tx: Tx,
) -> Result<Placed, SubmitFault>
    requires place { (k < length logs.now) × (k < length passes.old.items) }
    requires own { AllZip IsPassOf logs.now passes.old.items }
    ensures submitted { (d : Known Tx) → HasSubmitted (get_or passes.old.items k d) tx result (get_or passes.new.items k d) }
    ensures set { (d : Known Tx) → passes.new.items ≡ slice_set passes.old.items k (get_or passes.new.items k d) }
    ensures own { AllZip IsPassOf logs.now passes.new.items }
{
    logs[k].submit(rt, &mut passes[k], tx)
}

/// Submits a transaction to each log, until one refuses it.
fn submit_to_each<R: Wait>(
    rt: &R,
    logs: &[SharedLog],
    passes: &mut Vec<LogPass>,
    tx: Tx,
) -> Result<(), SubmitFault>
    requires { AllZip IsPassOf logs.now passes.old.items }
    ensures own { AllZip IsPassOf logs.now passes.new.items }
    ensures all { OnOk result (ByFirst tx (length passes.old.items) passes.old.items passes.new.items) }
    ensures some { AllZip (MaySubmit tx) passes.old.items passes.new.items }
    ensures full { result ≡ Err Full → SomeFull tx passes.new.items }
{
    let count = passes.len();
    for k in 0..count {
        submit_at(rt, logs, passes, k, tx)?;
    }
    Ok(())
}

/// Exchanges what a pass and the pass at an index have seen.
fn report_at(logs: &[SharedLog], passes: &mut Vec<LogPass>, k: usize, driver: &mut LogPass)
    // The index is that of a log and its pass, and the driver is a pass of that log too.
    requires place { (k < length logs.now) × (k < length passes.old.items) }
    requires own { AllZip IsPassOf logs.now passes.old.items }
    requires driver { (d : Opened) → IsPassOf (get_or logs.now k d) driver.old }
    requires parts { 2 ≤ driver.old.parts }
    // That pass has seen more, and all others are as before.
    ensures looked { (d : Known Tx) → HasLooked (get_or passes.old.items k d) (get_or passes.new.items k d) }
    ensures set { (d : Known Tx) → passes.new.items ≡ slice_set passes.old.items k (get_or passes.new.items k d) }
    ensures arrivals { (d : Known Tx) → IsArrivals (get_or passes.new.items k d).seen }
    ensures own { AllZip IsPassOf logs.now passes.new.items }
    // So has the driver, which has seen all that the pass has.
    ensures heard { HasLooked driver.old driver.new }
    ensures reported { (d : Known Tx) → IsPrefix (get_or passes.new.items k d).seen driver.new.seen }
{
    logs[k].report(driver, &mut passes[k])
}

impl Client {
    /// A client that has submitted nothing, with a pass for each log.
    #[tactic(auto, using(crate::proofs::Clients::of_fresh))]
    pub fn new(id: u32, count: u32, passes: Vec<LogPass>) -> Client
        ensures same { (result.id ≡ id) × (result.count ≡ count) × (result.next ≡ 0) × (result.fault ≡ None) × (result.passes ≡ passes) }
        ensures of { (logs : List Opened) → AllZip IsPassOf logs passes.items → All IsFresh passes.items → OfClient logs result }
    {
        Client {
            id,
            count,
            next: 0,
            passes,
            fault: None,
        }
    }

    /// Exchanges what a pass and the client's pass of the log at an index have seen.
    pub fn report(&mut self, logs: &[SharedLog], k: usize, driver: &mut LogPass)
        // The index is that of one of its logs, and the driver is a pass of that log too.
        requires of { OfClient logs.now self.old }
        requires place { k < length logs.now }
        requires driver { (d : Opened) → IsPassOf (get_or logs.now k d) driver.old }
        requires parts { 2 ≤ driver.old.parts }
        // Its passes have seen more, and nothing else changes.
        ensures of { OfClient logs.now self.new }
        ensures same { (self.new.id ≡ self.old.id) × (self.new.count ≡ self.old.count) × (self.new.next ≡ self.old.next) × (self.new.fault ≡ self.old.fault) }
        ensures seen { AllZip SeenMore self.old.passes.items self.new.passes.items }
        // So has the driver, which has seen all that the pass has.
        ensures heard { HasLooked driver.old driver.new }
        ensures reported { (d : Known Tx) → IsPrefix (get_or self.new.passes.items k d).seen driver.new.seen }
    {
        report_at(logs, &mut self.passes, k, driver);
    }

    /// Submits its next transactions, at most 64, each to every log. It stops where a log refuses one.
    #[tactic(auto, using(crate::proofs::Clients::seen_same, crate::proofs::Clients::seen_on))]
    pub fn round<R: Wait>(&mut self, rt: &R, logs: &[SharedLog])
        requires { OfClient logs.now self.old }
        ensures of { OfClient logs.now self.new }
        ensures same { (self.new.id ≡ self.old.id) × (self.new.count ≡ self.old.count) }
        ensures seen { AllZip SeenMore self.old.passes.items self.new.passes.items }
        ensures next { self.new.fault ≡ None → (self.old.fault ≡ None) × (self.new.next ≡ min self.old.count (self.old.next + 64)) }
    {
        for step in 0..MOST {
            self.submit_next(rt, logs);
        }
    }

    /// Submits the next transaction, if there is one and none was refused.
    #[tactic(auto, using(crate::proofs::Clients::seen_same, crate::proofs::Clients::seen_may))]
    fn submit_next<R: Wait>(&mut self, rt: &R, logs: &[SharedLog])
        requires { OfClient logs.now self.old }
        ensures of { OfClient logs.now self.new }
        ensures same { (self.new.id ≡ self.old.id) × (self.new.count ≡ self.old.count) }
        ensures seen { AllZip SeenMore self.old.passes.items self.new.passes.items }
        ensures next { self.new.fault ≡ None → (self.old.fault ≡ None) × (self.new.next ≡ min self.old.count (self.old.next + 1)) }
    {
        if self.fault.is_some() || self.next >= self.count {
            return;
        }
        let tx = Tx {
            client: self.id,
            number: self.next + 1,
            payload: 0,
        };
        match submit_to_each(rt, logs, &mut self.passes, tx) {
            Ok(()) => self.next += 1,
            Err(fault) => self.fault = Some(fault),
        }
    }
}
