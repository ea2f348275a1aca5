//! A replica behind a pointer, as C holds it.
ghost use Rattle.std.specs.Prelude.{◌≡◌, Option, Some, None};
ghost use Rattle.std.specs.Option.{MatchOption};
ghost use Rattle.replica_box.specs.Seats.{Seat};

use crate::loose::Loose;
use replica_box::Replica;
use std::alloc::Global;
use std::marker::Model;
use std::mem::replace;
use std::ptr::null_mut;

/// A pointer that owns a replica, or null. C sees a struct of one pointer, which it sets to null at first and then
/// neither reads nor changes.
#[repr(C)]
pub struct Handle {
    at: *mut u8,
    alloc: Global,
    pub ghost seat: { Option Seat },
}

impl Model for Handle {
    ghost use Rattle.replica_box.specs.contracts.replica.Replica.{the_row};
    ghost use Rattle.themis_c.specs.Owned.{held_at};

    ghost also_owns = { λ h. held_at the_row h.alloc h.at h.seat };
}

impl Handle {
    /// A handle that holds no replica, as C's `{0}`.
    pub(crate) fn vacant(alloc: Global) -> Handle
        ensures { result.seat ≡ None }
    {
        Handle {
            at: null_mut(),
            alloc,
        }
    }

    fn of(replica: Loose<Replica, Global>) -> Handle
        ensures { result.seat ≡ Some replica.value }
    {
        let Loose { at, alloc } = replica;
        Handle {
            at: at.cast(),
            alloc,
        }
    }

    fn into_loose(self) -> Option<Loose<Replica, Global>>
        ensures { MatchOption result (self.seat ≡ None) (λ l. self.seat ≡ Some l.value) }
    {
        let Handle { at, alloc } = self;
        if at.is_null() {
            None
        } else {
            Some(Loose {
                at: at.cast(),
                alloc,
            })
        }
    }

    /// Takes the replica out. The handle is vacant then.
    pub(crate) fn take(&mut self, alloc: Global) -> Option<Box<Replica>>
        ensures replica { MatchOption result (self.old.seat ≡ None) (λ b. self.old.seat ≡ Some b.value) }
        ensures vacant { self.new.seat ≡ None }
    {
        match replace(self, Handle::vacant(alloc)).into_loose() {
            None => None,
            Some(loose) => Some(loose.into_box()),
        }
    }

    /// Ends a handle of a test.
    #[cfg(test)]
    pub(crate) fn end(self) {
        match self.into_loose() {
            None => {}
            Some(loose) => drop(loose.into_box()),
        }
    }

    /// Puts a replica into the handle. One that it held is freed.
    pub(crate) fn put(&mut self, replica: Box<Replica>)
        ensures { self.new.seat ≡ Some replica.value }
    {
        match replace(self, Handle::of(Loose::of(replica))).into_loose() {
            None => {}
            Some(loose) => drop(loose.into_box()),
        }
    }
}

// Any thread may free a block of the heap, and a replica may move between threads. So may a handle.
unsafe impl Send for Handle {}
