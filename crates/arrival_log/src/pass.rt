use crate::log::Log;
use locked_log::Pass;
use std::marker::Model;

/// What a thread knows of a shared log: a prefix of its history, the places of what was submitted with this pass, and
/// its parts. It has no bytes at run time.
#[derive(Drop)]
pub struct LogPass {
    pub(crate) pass: Pass<Log>,
}

impl Model for LogPass {
    ghost use Rattle.seq_base.specs.declared.tx.Tx.{Tx};
    ghost use Rattle.locked_log.specs.History.{Known};

    ghost Value = { Known Tx };

    ghost use Rattle.arrival_log.specs.Arrivals.{IsArrivals};

    ghost view = { λ p. p.pass };

    ghost invariant = { λ p. IsArrivals p.pass.seen };
}
