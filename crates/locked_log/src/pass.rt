use crate::grows::Grows;
use crate::view::View;
use atomic_table::Seat;
use std::marker::Model;

/// What a thread knows of a log: a prefix of its history, the places that this pass owns, and its parts. It has no
/// bytes at run time. Contracts see it as that record.
#[derive(Drop)]
pub struct Pass<L: Grows> {
    pub(crate) seat: Seat<Option<L>, View<L::Entry>>,
}

impl<L: Grows> Model for Pass<L> {
    ghost use Rattle.std.specs.Prelude.{◌≡◌, []};
    ghost use Rattle.locked_log.specs.History.{Known};

    ghost Value = { Known L.Entry };

    ghost use Rattle.locked_log.specs.Turns.{known_by, IsIdle};

    ghost view = { λ p. known_by p.seat.table_id p.seat.me.0 };

    ghost invariant = { λ p. (p.seat.me.1 ≡ []) × IsIdle p.seat.me.0 };
}
