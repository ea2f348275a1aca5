//! The rule of the lock, and what each step guarantees.
use crate::grows::Grows;
use crate::view::View;
use atomic_table::{Join, Play, Split, TableRule};
use std::snapshot::Snapshot;

/// The parts and the first value, which the rule is given once.
#[derive(Drop)]
pub(crate) struct Opening<L> {
    pub(crate) parts: u32,
    pub(crate) first: Snapshot<L>,
}

pub(crate) struct Turns;

impl<L: Grows> TableRule<Option<L>, View<L::Entry>, Opening<L>> for Turns {
    ghost use Rattle.locked_log.specs.Turns.{Kept, opener};

    ghost holds = { λ k s. Kept L.list k.parts s };

    ghost first = { λ k. opener k.parts (L.list k.first.value) };
}

pub(crate) struct Takes;

impl<L: Grows> Play<Option<L>, View<L::Entry>> for Takes {
    ghost use Rattle.locked_log.specs.Turns.{Taken};

    ghost then = { Taken L.list };
}

pub(crate) struct Stores;

impl<L: Grows> Play<Option<L>, View<L::Entry>> for Stores {
    ghost use Rattle.locked_log.specs.Turns.{Stored};

    ghost then = { Stored L.list };
}

pub(crate) struct Releases;

impl<L: Grows> Play<Option<L>, View<L::Entry>> for Releases {
    ghost use Rattle.locked_log.specs.Turns.{Released};

    ghost then = { Released L.list };
}

pub(crate) struct Loads;

impl<L: Grows> Play<Option<L>, View<L::Entry>> for Loads {
    ghost use Rattle.locked_log.specs.Turns.{Loaded};

    ghost then = { Loaded L.list };
}

pub(crate) struct Compares;

impl<L: Grows> Play<Option<L>, View<L::Entry>> for Compares {
    ghost use Rattle.locked_log.specs.Turns.{Compared};

    ghost then = { Compared L.list };
}

pub(crate) struct Parts;

impl<E> Split<View<E>> for Parts {
    ghost use Rattle.locked_log.specs.Turns.{kept_part, new_part};

    ghost left = { kept_part };

    ghost right = { new_part };
}

impl<E> Join<View<E>> for Parts {
    ghost use Rattle.locked_log.specs.Turns.{both, spent};

    ghost both = { both };

    ghost spent = { spent };
}
