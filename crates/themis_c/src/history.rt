//! A history behind a pointer, as C holds it.
ghost use Rattle.std.specs.Prelude.{◌≡◌, List, Option, Some, None, IfOk, OnErr};
ghost use Rattle.std.specs.Option.{MatchOption};
ghost use Rattle.seq_base.specs.declared.tx.Tx.{Tx};
ghost use Rattle.themis_c.specs.Histories.{final_in};

use crate::loose::Loose;
use seq_base::NoMemory;
use session_rules::FinalTxs;
use std::alloc::Global;
use std::marker::Model;
use std::mem::replace;
use std::ptr::null_mut;

/// A pointer that owns the set of what is final, or null: then nothing is final. C sees a struct of one pointer, which it
/// sets to null at first and then neither reads nor changes.
#[repr(C)]
pub struct History {
    at: *mut u8,
    alloc: Global,
    pub ghost keys: { Option (List Tx) },
}

impl Model for History {
    ghost use Rattle.session_rules.specs.contracts.final_txs.FinalTxs.{the_row};
    ghost use Rattle.themis_c.specs.Owned.{held_at};

    ghost also_owns = { λ h. held_at the_row h.alloc h.at h.keys };
}

impl History {
    /// A history in which nothing is final, as C's `{0}`.
    pub(crate) fn vacant(alloc: Global) -> History
        ensures { result.keys ≡ None }
    {
        History {
            at: null_mut(),
            alloc,
        }
    }

    fn of(txs: Loose<FinalTxs, Global>) -> History
        ensures { result.keys ≡ Some txs.value }
    {
        let Loose { at, alloc } = txs;
        History {
            at: at.cast(),
            alloc,
        }
    }

    fn into_loose(self) -> Option<Loose<FinalTxs, Global>>
        ensures { MatchOption result (self.keys ≡ None) (λ l. self.keys ≡ Some l.value) }
    {
        let History { at, alloc } = self;
        if at.is_null() {
            None
        } else {
            Some(Loose {
                at: at.cast(),
                alloc,
            })
        }
    }

    /// Takes the set out. The handle is vacant then.
    pub(crate) fn take(&mut self, alloc: Global) -> Option<Box<FinalTxs>>
        ensures txs { MatchOption result (self.old.keys ≡ None) (λ b. self.old.keys ≡ Some b.value) }
        ensures vacant { self.new.keys ≡ None }
    {
        match replace(self, History::vacant(alloc)).into_loose() {
            None => None,
            Some(loose) => Some(loose.into_box()),
        }
    }

    /// Takes the set out, or makes one where nothing is final.
    pub(crate) fn take_or_new(&mut self, alloc: Global) -> Result<Box<FinalTxs>, NoMemory>
        ensures txs { IfOk result (λ b. b.value ≡ final_in self.old.keys) }
        ensures err { OnErr result (final_in self.new.keys ≡ final_in self.old.keys) }
    {
        if let Some(txs) = self.take(alloc) {
            return Ok(txs);
        }
        match Box::new(alloc, FinalTxs::new(alloc)) {
            Ok(txs) => Ok(txs),
            Err(_) => Err(NoMemory),
        }
    }

    /// Ends a handle of a test.
    #[cfg(test)]
    pub(crate) fn end(self) {
        match self.into_loose() {
            None => {}
            Some(loose) => drop(loose.into_box()),
        }
    }

    /// Puts a set into the handle. One that it held is freed.
    pub(crate) fn put(&mut self, txs: Box<FinalTxs>)
        ensures { self.new.keys ≡ Some txs.value }
    {
        match replace(self, History::of(Loose::of(txs))).into_loose() {
            None => {}
            Some(loose) => drop(loose.into_box()),
        }
    }
}

// Any thread may free a block of the heap, and a set may move between threads. So may a handle.
unsafe impl Send for History {}
