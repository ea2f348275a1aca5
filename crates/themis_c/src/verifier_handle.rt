//! A verifier behind a pointer, as C holds it.
ghost use Rattle.std.specs.Prelude.{◌≡◌, Option, Some, None};
ghost use Rattle.std.specs.Option.{MatchOption};
ghost use Rattle.replica_box.specs.CheckerKeys.{CheckerKeys};

use crate::loose::Loose;
use replica_box::Verifier;
use std::alloc::Global;
use std::marker::Model;
use std::mem::replace;
use std::ptr::null_mut;

/// A pointer that owns a verifier, or null. C sees a struct of one pointer, which it sets to null at first and then neither
/// reads nor changes.
#[repr(C)]
pub struct VerifierHandle {
    at: *mut u8,
    alloc: Global,
    pub ghost keys: { Option CheckerKeys },
}

impl Model for VerifierHandle {
    ghost use Rattle.replica_box.specs.contracts.verifier.Verifier.{the_row};
    ghost use Rattle.themis_c.specs.Owned.{held_at};

    ghost also_owns = { λ h. held_at the_row h.alloc h.at h.keys };
}

impl VerifierHandle {
    /// A handle that holds no verifier, as C's `{0}`.
    pub(crate) fn vacant(alloc: Global) -> VerifierHandle
        ensures { result.keys ≡ None }
    {
        VerifierHandle {
            at: null_mut(),
            alloc,
        }
    }

    fn of(verifier: Loose<Verifier, Global>) -> VerifierHandle
        ensures { result.keys ≡ Some verifier.value }
    {
        let Loose { at, alloc } = verifier;
        VerifierHandle {
            at: at.cast(),
            alloc,
        }
    }

    fn into_loose(self) -> Option<Loose<Verifier, Global>>
        ensures { MatchOption result (self.keys ≡ None) (λ l. self.keys ≡ Some l.value) }
    {
        let VerifierHandle { at, alloc } = self;
        if at.is_null() {
            None
        } else {
            Some(Loose {
                at: at.cast(),
                alloc,
            })
        }
    }

    /// Takes the verifier out. The handle is vacant then.
    pub(crate) fn take(&mut self, alloc: Global) -> Option<Box<Verifier>>
        ensures verifier { MatchOption result (self.old.keys ≡ None) (λ b. self.old.keys ≡ Some b.value) }
        ensures vacant { self.new.keys ≡ None }
    {
        match replace(self, VerifierHandle::vacant(alloc)).into_loose() {
            None => None,
            Some(loose) => Some(loose.into_box()),
        }
    }

    /// Ends a handle of a test.
    #[cfg(test)]
    pub(crate) fn end(self) {
        match self.into_loose() {
            None => {}
            Some(loose) => drop(loose.into_box()),
        }
    }

    /// Puts a verifier into the handle. One that it held is freed.
    pub(crate) fn put(&mut self, verifier: Box<Verifier>)
        ensures { self.new.keys ≡ Some verifier.value }
    {
        match replace(self, VerifierHandle::of(Loose::of(verifier))).into_loose() {
            None => {}
            Some(loose) => drop(loose.into_box()),
        }
    }
}

// Any thread may free a block of the heap, and a verifier may move between threads. So may a handle.
unsafe impl Send for VerifierHandle {}
