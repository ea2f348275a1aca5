//! Checks seals ahead, on a thread of its own.
ghost use Rattle.std.specs.Prelude.{◌≡◌, ◌↔◌, IfOk, IsTrue, Some, true};
ghost use Rattle.node_core.specs.Rows.{Check};
ghost use Rattle.replica_box.specs.CheckerKeys.{keys_fit};
ghost use Rattle.replica_box.specs.SealCache.{AreGood, IsGood};
ghost use Rattle.replica_box.specs.Verified.{AreAllGood};

use crate::keyed_checker::KeyedChecker;
use crate::learning::{Learner, learn_bytes};
use crate::recent_seals::{AcceptedSeal, RecentSeals};
use seal_kit::{Checker, Height};
use seq_base::NoMemory;
use std::alloc::Global;
use std::marker::Model;
use std::mem::replace;

/// Checks the seals of messages on a thread of its own, and holds no secret. Several verifiers share the seals of one message;
/// then the replica takes what they accepted ([`crate::Replica::take_verified`]), and does not check it again.
pub struct Verifier {
    alloc: Global,
    checker: KeyedChecker,
    /// The seals of the last message that it checked and that fit. A message has at most 33.
    kept: Vec<AcceptedSeal>,
    /// How many seals of the message the walk has met.
    met: u32,
    share: u32,
    shares: u32,
}

impl Drop for Verifier {
    fn drop(self) {
        let Verifier {
            alloc: _,
            checker: _,
            kept: _,
            met: _,
            share: _,
            shares: _,
        } = self;
    }
}

impl Model for Verifier {
    ghost use Rattle.replica_box.specs.CheckerKeys.{CheckerKeys, keys_fit};
    ghost use Rattle.replica_box.specs.Verified.{AreAllGood};

    ghost Value = { CheckerKeys };

    ghost view = { λ v. v.checker };

    ghost invariant = { λ v. AreAllGood (keys_fit v.checker) v.kept.items };
}

impl Verifier {
    /// Checks by the public keys of all replicas, of this height: key number i is that of replica i.
    pub fn new(alloc: Global, height: Height, publics: &[[u8; 60]]) -> Result<Verifier, NoMemory>
        ensures { IfOk result (λ verifier. verifier ≡ record { height = height; publics = publics.now }) }
    {
        let checker = KeyedChecker::new(alloc, height, publics)?;
        Ok(Verifier {
            alloc,
            checker,
            kept: Vec::new(alloc),
            met: 0,
            share: 0,
            shares: 0,
        })
    }

    /// Checks a share of the seals of a message that replica `from` sent, for a replica in this view: those whose number
    /// modulo `shares` is `share`, in the order in which [`crate::Replica::prepare`] checks them. It keeps those that fit,
    /// and forgets those of the message before; returns how many it keeps. It stops at one that does not fit, and skips what
    /// `prepare` skips. Out of memory a seal is not kept.
    pub fn verify(&mut self, view: u32, from: u32, bytes: &[u8], share: u32, shares: u32) -> usize
        ensures { self.new ≡ self.old }
    {
        self.start(share, shares);
        learn_bytes(self, view, from, bytes);
        self.kept.len()
    }

    /// Nothing is kept, and no seal is met.
    fn start(&mut self, share: u32, shares: u32)
        ensures { self.new ≡ self.old }
    {
        self.kept = Vec::new(self.alloc);
        self.met = 0;
        self.share = share;
        self.shares = shares;
    }

    /// Whether the next seal of the message is in the share.
    fn is_next_own(&mut self) -> bool
        ensures { self.new ≡ self.old }
    {
        let at = self.met;
        self.met = at.wrapping_add(1);
        self.shares != 0 && at % self.shares == self.share
    }

    /// Lets the checker learn the head of a seal, which takes no longer than to check it.
    fn learn_head(&mut self, replica: u32, statement: &[u8], seal: &[u8])
        ensures { self.new ≡ self.old }
    {
        let _known = self.checker.learn(replica, statement, seal);
    }

    /// Checks a seal, and keeps it if it fits.
    fn check(&mut self, replica: u32, statement: &[u8], seal: &[u8]) -> bool
        ensures { self.new ≡ self.old }
    {
        let fits = self.checker.fits(replica, statement, seal);
        if fits {
            self.keep(replica, statement, seal);
        }
        fits
    }

    /// Keeps a seal that fits.
    fn keep(&mut self, replica: u32, statement: &[u8], seal: &[u8])
        requires { keys_fit self.old replica statement.now seal.now ≡ true }
        ensures { self.new ≡ self.old }
    {
        if let Ok(accepted) = AcceptedSeal::new(self.alloc, replica, statement, seal) {
            let _kept = self.kept.push(accepted);
        }
    }

    /// Whether a checker has the same keys, of the same height.
    pub(crate) fn has_keys_of(&self, checker: &KeyedChecker) -> bool
        ensures { IsTrue result ↔ (checker.now ≡ self.now) }
    {
        checker.has_keys_of(&self.checker)
    }

    /// Moves the seals that it keeps to seals that are remembered.
    pub(crate) fn move_to(&mut self, recent: &mut RecentSeals)
        ensures good { AreGood (keys_fit self.old) recent.old → AreGood (keys_fit self.old) recent.new }
        ensures same { self.new ≡ self.old }
    {
        add_all(recent, replace(&mut self.kept, Vec::new(self.alloc)));
    }
}

/// Adds seals to those that are remembered.
fn add_all(recent: &mut RecentSeals, kept: Vec<AcceptedSeal>)
    ensures { (fits : Check) → AreAllGood fits kept.items → AreGood fits recent.old → AreGood fits recent.new }
{
    let mut kept = kept;
    for _ in 0..kept.len() {
        add_last(recent, &mut kept);
    }
}

/// Moves the last one.
fn add_last(recent: &mut RecentSeals, kept: &mut Vec<AcceptedSeal>)
    ensures rest { (fits : Check) → AreAllGood fits kept.old.items → AreAllGood fits kept.new.items }
    ensures good { (fits : Check) → AreAllGood fits kept.old.items → AreGood fits recent.old → AreGood fits recent.new }
{
    let Some(accepted) = kept.pop() else {
        return;
    };
    recent.add(accepted);
}

impl Learner for Verifier {
    fn learn(&mut self, replica: u32, statement: &[u8], seal: &[u8]) -> bool {
        if !self.is_next_own() {
            return true;
        }
        self.learn_head(replica, statement, seal);
        self.check(replica, statement, seal)
    }
}
