//! A checker, with the public keys by which it checks.
ghost use Rattle.std.specs.Prelude.{◌≡◌, ◌↔◌, IfOk, IsTrue};
ghost use Rattle.replica_box.specs.CheckerKeys.{keys_fit};

use crate::learning::Learner;
use hss_seal::AnyChecker;
use seal_kit::{Checker, Height};
use seq_base::NoMemory;
use std::alloc::Global;
use std::marker::Model;

/// Remembers its keys whole, so that two checkers can be compared.
pub(crate) struct KeyedChecker {
    height: Height,
    publics: Vec<[u8; 60]>,
    checker: AnyChecker,
}

impl Drop for KeyedChecker {
    fn drop(self) {
        let KeyedChecker {
            height: _,
            publics: _,
            checker: _,
        } = self;
    }
}

impl Model for KeyedChecker {
    ghost use Rattle.std.specs.Prelude.{◌≡◌};
    ghost use Rattle.hss_seal.specs.Any.{any_meaning, any_publics_fit};
    ghost use Rattle.replica_box.specs.CheckerKeys.{CheckerKeys};

    ghost Value = { CheckerKeys };

    ghost view = { λ c. record { height = c.height; publics = c.publics.items } };

    ghost invariant = { λ c. any_meaning c.checker ≡ any_publics_fit c.height c.publics.items };
}

impl KeyedChecker {
    /// Key number i is that of replica i.
    pub(crate) fn new(
        alloc: Global,
        height: Height,
        publics: &[[u8; 60]],
    ) -> Result<KeyedChecker, NoMemory>
        ensures { IfOk result (λ checker. checker ≡ record { height = height; publics = publics.now }) }
    {
        let checker = AnyChecker::from_publics(alloc, height, publics)?;
        let publics = Vec::from_slice(alloc, publics)?;
        Ok(KeyedChecker {
            height,
            publics,
            checker,
        })
    }

    /// Whether the other one has the same keys, of the same height.
    pub(crate) fn has_keys_of(&self, other: &KeyedChecker) -> bool
        ensures { IsTrue result ↔ (self.now ≡ other.now) }
    {
        self.height == other.height && are_same(self.publics.as_slice(), other.publics.as_slice())
    }
}

fn are_same(one: &[[u8; 60]], other: &[[u8; 60]]) -> bool
    ensures { IsTrue result ↔ (one.now ≡ other.now) }
{
    one == other
}

impl Checker for KeyedChecker {
    ghost use Rattle.replica_box.specs.CheckerKeys.{keys_fit};

    ghost meaning = { keys_fit };

    fn fits(&self, replica: u32, bytes: &[u8], seal: &[u8]) -> bool {
        self.checker.fits(replica, bytes, seal)
    }
}

/// Learns heads alone: the log may have many more seals than a cache holds.
impl Learner for KeyedChecker {
    fn learn(&mut self, replica: u32, _statement: &[u8], seal: &[u8]) -> bool {
        self.checker.learn(replica, seal)
    }
}
