//! The jobs of one turn on a log.
use crate::log::{Log, Placed, SubmitFault};
use locked_log::Job;
use seq_base::{NoMemory, Tx, TxList};
use std::alloc::Global;

/// Submits one transaction.
#[derive(Drop)]
pub(crate) struct Submit {
    pub(crate) tx: Tx,
}

impl Job<Log> for Submit {
    ghost use Rattle.arrival_log.specs.Arrivals.{IsSubmitted};

    type Answer = Result<Placed, SubmitFault>;

    ghost can = { λ job list. Unit {0} };

    ghost does = { λ job list answer after done. IsSubmitted list job.tx answer after };

    fn work(&mut self, inner: &mut Log) -> Result<Placed, SubmitFault> {
        inner.submit(self.tx)
    }
}

/// Copies the entries from a position on.
#[derive(Drop)]
pub(crate) struct CopyFrom {
    pub(crate) alloc: Global,
    pub(crate) from: u32,
}

impl Job<Log> for CopyFrom {
    ghost use Rattle.std.specs.Prelude.{◌≡◌, ◌≤◌, length, drop, IfOk};
    ghost use Rattle.arrival_log.specs.Arrivals.{IsArrivals};

    type Answer = Result<TxList, NoMemory>;

    ghost can = { λ job list. job.from ≤ length list };

    ghost does = { λ job list answer after done. (after ≡ list) × IfOk answer (λ copy. copy ≡ drop job.from list) × IsArrivals list };

    fn work(&mut self, inner: &mut Log) -> Result<TxList, NoMemory> {
        inner.copy_from(self.alloc, self.from)
    }
}
