//! The driver's state for each log.

ghost use Rattle.std.specs.Prelude.{◌≡◌, ◌∷◌, [], List, OnOk};
ghost use Rattle.replica_seat.specs.declared.arrivals.TimedTx.{TimedTx};
ghost use Rattle.replica_seat.specs.Feed.{after_giving};
ghost use Rattle.thread_run.specs.Going.{DriverGoes, HasGiven, Tries};
ghost use Rattle.thread_run.specs.Exchange.{IsDriverOf};

use arrival_log::{LogPass, SharedLog, SubmitFault};
use replica_seat::Feed;
use seq_base::{NoMemory, Tx};
use std::alloc::Global;
use std::sync::Wait;

/// The driver's pass of one log, the arrivals at the replica of the log, and why the log did not take a transaction, if
/// it did not.
#[derive(Drop)]
pub(crate) struct Driver {
    pub(crate) pass: LogPass,
    pub(crate) feed: Feed,
    pub(crate) fault: Option<SubmitFault>,
}

impl Driver {
    /// Submits what arrives by a count of turns and was not submitted yet.
    pub(crate) fn submit_until<R: Wait>(
        &mut self,
        rt: &R,
        alloc: Global,
        log: &SharedLog,
        turns: u32,
    ) -> Result<(), NoMemory>
        requires { IsDriverOf log.now self.old }
        ensures goes { OnOk result (DriverGoes self.old self.new) }
        ensures feed { OnOk result (self.new.feed ≡ after_giving turns self.old.feed) }
        ensures given { OnOk result ((all : List TimedTx) → HasGiven all self.old → HasGiven all self.new) }
    {
        let txs = self.feed.take_until(alloc, turns)?;
        self.submit_all(rt, log, txs.as_slice());
        Ok(())
    }

    /// Submits transactions, until one is not taken.
    #[tactic(auto, using(crate::proofs::DriverLog::goes_self, crate::proofs::DriverLog::goes_on, crate::proofs::DriverLog::own_on, crate::proofs::DriverLog::tries_none, crate::proofs::DriverLog::tries_more))]
    fn submit_all<R: Wait>(&mut self, rt: &R, log: &SharedLog, txs: &[Tx])
        requires { IsDriverOf log.now self.old }
        ensures goes { DriverGoes self.old self.new }
        ensures feed { self.new.feed ≡ self.old.feed }
        ensures tried { Tries txs.now self.old self.new }
    {
        for tx in txs {
            self.submit(rt, log, *tx);
        }
    }

    /// Submits a transaction, unless an earlier one was not taken.
    fn submit<R: Wait>(&mut self, rt: &R, log: &SharedLog, tx: Tx)
        requires { IsDriverOf log.now self.old }
        ensures goes { DriverGoes self.old self.new }
        ensures feed { self.new.feed ≡ self.old.feed }
        ensures tried { Tries (tx ∷ []) self.old self.new }
    {
        if self.fault.is_some() {
            return;
        }
        match log.submit(rt, &mut self.pass, tx) {
            Ok(_) => (),
            Err(fault) => self.fault = Some(fault),
        }
    }
}
