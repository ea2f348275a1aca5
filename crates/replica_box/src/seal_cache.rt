//! A checker that remembers the seals that it accepted lately. [`crate::Replica::prepare`] lets it check the seals of a
//! message once; the turns that read the message then find them here.
ghost use Rattle.std.specs.Prelude.{◌≡◌, ◌↔◌, IfOk, IsTrue, true};
ghost use Rattle.replica_box.specs.CheckerKeys.{keys_fit};

use crate::keyed_checker::KeyedChecker;
use crate::learning::Learner;
use crate::recent_seals::RecentSeals;
use crate::verifier::Verifier;
use seal_kit::Checker;
use seq_base::NoMemory;
use std::alloc::Global;
use std::marker::Model;

/// Answers as its checker does. A seal that it remembers for the same replica and the same statement is not checked again.
pub(crate) struct CachingChecker {
    checker: KeyedChecker,
    recent: RecentSeals,
}

impl Drop for CachingChecker {
    fn drop(self) {
        let CachingChecker {
            checker: _,
            recent: _,
        } = self;
    }
}

impl Model for CachingChecker {
    ghost use Rattle.replica_box.specs.CheckerKeys.{CheckerKeys, keys_fit};
    ghost use Rattle.replica_box.specs.SealCache.{AreGood};

    ghost Value = { CheckerKeys };

    ghost view = { λ c. c.checker };

    ghost invariant = { λ c. AreGood (keys_fit c.checker) c.recent };
}

impl CachingChecker {
    /// With room for the seals of this many replicas.
    pub(crate) fn new(
        alloc: Global,
        checker: KeyedChecker,
        replicas: usize,
    ) -> Result<CachingChecker, NoMemory>
        ensures { IfOk result (λ caching. caching ≡ checker) }
    {
        let recent = RecentSeals::new(alloc, replicas)?;
        Ok(CachingChecker { checker, recent })
    }

    /// Whether a replica's seal fits a statement. A seal that fits is remembered, and the head of each seal. Out of memory
    /// nothing is remembered, and the answer is the same.
    pub(crate) fn accepts(&mut self, replica: u32, statement: &[u8], seal: &[u8]) -> bool
        ensures value { result ≡ keys_fit self.old replica statement.now seal.now }
        ensures same { self.new ≡ self.old }
    {
        if self.has(replica, statement, seal) {
            return true;
        }
        self.learn_head(replica, statement, seal);
        self.check(replica, statement, seal)
    }

    /// Whether a seal is remembered, which fits.
    fn has(&self, replica: u32, statement: &[u8], seal: &[u8]) -> bool
        ensures { result ≡ true → keys_fit self.now replica statement.now seal.now ≡ true }
    {
        self.recent.has(replica, statement, seal)
    }

    /// Lets the checker learn the head of a seal, which takes no longer than to check it.
    fn learn_head(&mut self, replica: u32, statement: &[u8], seal: &[u8])
        ensures { self.new ≡ self.old }
    {
        let _known = self.checker.learn(replica, statement, seal);
    }

    /// Checks a seal, and remembers it if it fits.
    fn check(&mut self, replica: u32, statement: &[u8], seal: &[u8]) -> bool
        ensures value { result ≡ keys_fit self.old replica statement.now seal.now }
        ensures same { self.new ≡ self.old }
    {
        let fits = self.checker.fits(replica, statement, seal);
        if fits {
            self.remember(replica, statement, seal);
        }
        fits
    }

    /// Takes the seals that a verifier keeps, if it checks by the same keys, and returns whether it does.
    pub(crate) fn take_verified(&mut self, verifier: &mut Verifier) -> bool
        ensures value { IsTrue result ↔ (self.old ≡ verifier.old) }
        ensures same { self.new ≡ self.old }
        ensures verifier { verifier.new ≡ verifier.old }
    {
        if !verifier.has_keys_of(&self.checker) {
            return false;
        }
        verifier.move_to(&mut self.recent);
        true
    }

    /// Remembers a seal that fits.
    fn remember(&mut self, replica: u32, statement: &[u8], seal: &[u8])
        requires { keys_fit self.old replica statement.now seal.now ≡ true }
        ensures { self.new ≡ self.old }
    {
        let _remembered = self.recent.remember(replica, statement, seal);
    }
}

impl Checker for CachingChecker {
    ghost use Rattle.replica_box.specs.CheckerKeys.{keys_fit};

    ghost meaning = { keys_fit };

    fn fits(&self, replica: u32, bytes: &[u8], seal: &[u8]) -> bool {
        self.has(replica, bytes, seal) || self.checker.fits(replica, bytes, seal)
    }
}

impl Learner for CachingChecker {
    fn learn(&mut self, replica: u32, statement: &[u8], seal: &[u8]) -> bool {
        self.accepts(replica, statement, seal)
    }
}
