//! The votes that the next leader keeps for a block, each with the local order that it carried.

ghost use Rattle.std.specs.Prelude.{◌≡◌, ◌<◌, length, IfOk, IfSome, OnOk};
ghost use Rattle.node_core.specs.Vote.{is_for, place_of, empty_ballot, ballot_of, others, with_carried, with_vote, formed_votes, formed, keeping, has_voted};
ghost use Rattle.quorum_cert.specs.Boxes.{has_vote, keep_answer};

use crate::state::State;
use crate::state::orders::insert_by_replica;
use quorum_cert::{Took, VoteBox};
use seq_base::{Cert, CertVote, CertVotes, Digest, NoMemory, SealedOrder, SealedOrders, Setting};
use std::alloc::Global;
use std::marker::Model;

/// The votes for a block in a view, and the orders for the next view that they carried, with ascending replicas.
#[derive(Drop)]
pub(crate) struct Ballot {
    view: u32,
    block: Digest,
    votes: VoteBox,
    orders: Vec<SealedOrder>,
}

impl Model for Ballot {
    ghost use Rattle.node_core.specs.State.{Ballot as Kept};

    ghost Value = { Kept };

    ghost view = { λ a. record { view = a.view; block = a.block; votes = a.votes; orders = a.orders.items } };
}

impl Ballot {
    fn new(alloc: Global, setting: Setting, view: u32, block: Digest) -> Ballot
        ensures { result ≡ empty_ballot setting view block }
    {
        Ballot {
            view,
            block,
            votes: VoteBox::new(alloc, setting, view, block),
            orders: Vec::new(alloc),
        }
    }

    fn is_for(&self, view: u32, block: &Digest) -> bool
        ensures { result ≡ is_for view block.now self.now }
    {
        self.view == view && self.block == *block
    }

    fn has(&self, replica: u32) -> bool
        ensures { result ≡ has_vote self.now.votes.votes replica }
    {
        self.votes.has(replica)
    }

    /// Keeps a vote with its order. Returns the votes if they are now enough for a certificate.
    fn keep(
        &mut self,
        vote: CertVote,
        order: Option<SealedOrder>,
    ) -> Result<Option<CertVotes>, NoMemory>
        ensures votes { IfOk result (λ votes. votes ≡ formed_votes (keep_answer self.old.votes vote)) }
        ensures kept { OnOk result (self.new ≡ with_vote vote order self.old) }
    {
        self.carry(order)?;
        match self.votes.keep(vote)? {
            Took::Formed(cert) => Ok(Some(cert.votes)),
            _ => Ok(None),
        }
    }

    fn carry(&mut self, order: Option<SealedOrder>) -> Result<(), NoMemory>
        ensures { OnOk result (self.new ≡ record self.old { orders = with_carried order self.old.orders }) }
    {
        match order {
            Some(sealed) => insert_by_replica(&mut self.orders, sealed),
            None => Ok(()),
        }
    }
}

/// A certificate, and the orders that its votes carried.
#[derive(Drop)]
pub struct Formed {
    pub cert: Cert,
    pub orders: SealedOrders,
}

impl State {
    fn place_of(&self, view: u32, block: &Digest) -> Option<usize>
        ensures value { result ≡ place_of view block.now self.now.boxes }
        ensures within { IfSome result (λ at. at < length self.now.boxes) }
    {
        self.boxes.iter().position(|kept| kept.is_for(view, block))
    }

    /// Whether a vote of this replica for the block in the view is kept.
    pub(crate) fn has_vote(&self, view: u32, block: &Digest, replica: u32) -> bool
        ensures { result ≡ has_voted self.now.boxes view block.now replica }
    {
        self.boxes
            .iter()
            .any(|kept| kept.is_for(view, block) && kept.has(replica))
    }

    /// Takes the ballot of a block in a view out, or a new one if there is none.
    fn take_ballot(&mut self, view: u32, block: &Digest) -> Ballot
        ensures ballot { result ≡ ballot_of self.old view block.now }
        ensures others { self.new ≡ record self.old { boxes = others view block.now self.old.boxes } }
    {
        match self.place_of(view, block) {
            Some(at) => self.boxes.remove(at),
            None => Ballot::new(self.alloc, *self.setting(), view, *block),
        }
    }

    /// Keeps a vote with its order. Returns the certificate if the vote completes it. Its ballot is then dropped, since
    /// no later vote of its view is taken.
    #[tactic(auto, unfolding(crate::specs::Vote::formed, crate::specs::Vote::keeping))]
    pub(crate) fn keep_vote(
        &mut self,
        view: u32,
        block: &Digest,
        vote: CertVote,
        order: Option<SealedOrder>,
    ) -> Result<Option<Formed>, NoMemory>
        ensures formed { IfOk result (λ f. f ≡ formed self.old view block.now vote order) }
        ensures kept { OnOk result (self.new ≡ keeping self.old view block.now vote order) }
        ensures view { IfOk result (λ formed. IfSome formed (λ f. f.cert.view ≡ view)) }
        ensures views { OnOk result (self.new.views ≡ self.old.views) }
    {
        let mut ballot = self.take_ballot(view, block);
        match ballot.keep(vote, order)? {
            Some(votes) => {
                let Ballot { orders, .. } = ballot;
                Ok(Some(Formed {
                    cert: Cert {
                        view,
                        block: *block,
                        votes,
                    },
                    orders: SealedOrders::of(orders),
                }))
            }
            None => {
                self.boxes.push(ballot)?;
                Ok(None)
            }
        }
    }
}
