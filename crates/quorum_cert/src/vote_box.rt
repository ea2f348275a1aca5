ghost use Rattle.std.specs.Prelude.{◌≡◌, ◌≤◌, IfOk, OnErr, false, length, true};
ghost use Rattle.quorum_cert.specs.Boxes.{Box, empty_box, is_foreign, has_vote, is_again, is_new, kept_in, keep_answer, take_answer, taken_in, place_in};
ghost use Rattle.quorum_cert.specs.Quorums.{IsWhole};

use seal_kit::Checker;
use seq_base::{Cert, CertVote, CertVotes, Digest, NoMemory, Setting, Vote};
use std::alloc::Global;
use std::marker::Model;
use std::mem;
use wire_write::vote_bytes;

/// The outcome of adding a vote.
#[derive(Drop)]
pub enum Took {
    /// The vote is stored.
    Kept,
    /// The replica's vote is stored already, or the certificate was formed before.
    Again,
    /// It names another view or another block, or a replica that does not exist.
    Foreign,
    /// Its seal does not fit.
    BadSeal,
    /// It completes the quorum. Returns the certificate of all votes, replicas in ascending order.
    Formed(Cert),
}

/// Collects votes for one block in one view until n-f of them form a certificate.
pub struct VoteBox {
    alloc: Global,
    setting: Setting,
    view: u32,
    block: Digest,
    /// Replicas in ascending order; empty once the certificate was returned.
    votes: Vec<CertVote>,
    formed: bool,
}

impl Drop for VoteBox {
    fn drop(self) {
        let VoteBox {
            alloc: _,
            setting: _,
            view: _,
            block: _,
            votes: _,
            formed: _,
        } = self;
    }
}

impl Model for VoteBox {
    ghost use Rattle.quorum_cert.specs.Boxes.{Box};

    ghost Value = { Box };

    ghost use Rattle.quorum_cert.specs.Quorums.{AreKept};

    ghost view = { λ b. record { setting = b.setting; view = b.view; block = b.block; votes = b.votes.items; formed = b.formed } };

    ghost invariant = { λ b. AreKept b.setting b.votes.items };
}

impl VoteBox {
    /// Allocates nothing.
    pub fn new(alloc: Global, setting: Setting, view: u32, block: Digest) -> VoteBox
        ensures { result ≡ empty_box setting view block }
    {
        VoteBox {
            alloc,
            setting,
            view,
            block,
            votes: Vec::new(alloc),
            formed: false,
        }
    }

    /// Checks the vote and stores it. It allocates only for a vote that it stores; out of memory, the box is unchanged.
    pub fn take<C: Checker>(&mut self, vote: Vote, checker: &C) -> Result<Took, NoMemory>
        ensures answer { IfOk result (λ took. took ≡ take_answer (C.meaning checker.now) self.old vote) }
        ensures state { IfOk result (λ _. self.new ≡ taken_in (C.meaning checker.now) self.old vote) }
        ensures whole { IfOk result (λ took. IsWhole self.old.setting took) }
        ensures err { OnErr result (self.new ≡ self.old) }
        ensures memory { OnErr result (is_new (C.meaning checker.now) self.old vote ≡ true) }
    {
        if self.is_foreign(&vote) {
            return Ok(Took::Foreign);
        }
        let statement = vote_bytes(vote.replica, vote.view, &vote.block);
        if !checker.fits(vote.replica, &statement, vote.seal.as_slice()) {
            return Ok(Took::BadSeal);
        }
        self.keep(CertVote {
            replica: vote.replica,
            seal: vote.seal,
        })
    }

    /// Whether the replica's vote is stored.
    pub fn has(&self, replica: u32) -> bool
        ensures { result ≡ has_vote self.now.votes replica }
    {
        self.votes.iter().any(|vote| vote.replica == replica)
    }

    /// Stores a replica's vote. The caller has checked what `take` checks: that the vote is for this block and view, that
    /// the replica is below n, and that the seal fits. The result is Kept, Again or Formed. It allocates only for a vote
    /// that it stores; out of memory, the box is unchanged.
    pub fn keep(&mut self, vote: CertVote) -> Result<Took, NoMemory>
        ensures answer { IfOk result (λ took. took ≡ keep_answer self.old vote) }
        ensures state { IfOk result (λ _. self.new ≡ kept_in self.old vote) }
        ensures whole { IfOk result (λ took. IsWhole self.old.setting took) }
        ensures err { OnErr result (self.new ≡ self.old) }
        ensures memory { OnErr result (is_again self.old vote.replica ≡ false) }
    {
        if self.formed || self.has(vote.replica) {
            return Ok(Took::Again);
        }
        let place = self.place(vote.replica);
        self.votes.insert(place, vote)?;
        if self.votes.len() < self.setting.quorum() as usize {
            return Ok(Took::Kept);
        }
        self.formed = true;
        let votes = mem::replace(&mut self.votes, Vec::new(self.alloc));
        Ok(Took::Formed(Cert {
            view: self.view,
            block: self.block,
            votes: CertVotes::of(votes),
        }))
    }

    fn is_foreign(&self, vote: &Vote) -> bool
        ensures { result ≡ is_foreign self.now vote.now }
    {
        vote.view != self.view || vote.block != self.block || vote.replica >= self.setting.n()
    }

    /// The number of stored votes of smaller replicas.
    fn place(&self, replica: u32) -> usize
        ensures place { result ≡ place_in self.now.votes replica }
        ensures within { result ≤ length self.now.votes }
    {
        self.votes
            .iter()
            .filter(|vote| vote.replica < replica)
            .count()
    }
}
