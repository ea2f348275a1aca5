ghost use Rattle.std.specs.Prelude.{◌≡◌, ◌≤◌, map};
ghost use Rattle.seq_base.specs.Writable.{IsWritable, IsWritableBlock};
ghost use Rattle.wire_view.specs.Messages.{message_of};
ghost use Rattle.run_verdict.specs.First.{counted};
ghost use Rattle.run_verdict.specs.Forged.{is_forged, forged_part, forged_from, forged_in_entry, forged_in_journal, first_forged_of};
ghost use Rattle.run_verdict.specs.Parts.{call_parts, cert_parts, block_parts, propose_parts, vote_parts, parts_of, order_part, vote_part};

use crate::delivered::delivered;
use crate::part::Part;
use crate::sealed::Bookmarks;
use node_core::Entry;
use run_record::{ForgedAt, Journal, RunRecord, is_honest, of_honest};
use seal_kit::Checker;
use wire_view::{BlockView, CallView, CertView, MessageView, OrderView, ProposeView, VoteView};
use wire_write::vote_bytes;

/// The first place of a forged seal in what honest replicas were delivered: an honest replica's seal that fits the
/// statement of its place, though the signer never sealed that statement. Places are in ascending order of receivers,
/// then entries, then parts.
/// The parts of a message are numbered from 0: the votes of its certificate, the local orders of its block, its own
/// statement, the local order of a vote. It allocates nothing.
pub fn first_forged<C: Checker>(run: &RunRecord, checker: &C) -> Option<ForgedAt>
    ensures { result ≡ first_forged_of (C.meaning checker.now) run.now }
{
    let search = Search { run, checker };
    let mut bookmarks = Bookmarks::start();
    for receiver in 0..run.setting.n() {
        let journals = run.journals.as_slice();
        if let Some(journal) = of_honest(&run.setting, &run.faulty, journals, receiver) {
            let forged = search.in_journal(&mut bookmarks, receiver, journal);
            if forged.is_some() {
                return forged;
            }
        }
    }
    None
}

/// The number of an entry. A journal is far shorter than the greatest number.
pub(crate) fn number_of(entry: usize) -> u32
    ensures { result ≡ counted entry }
{
    u32::try_from(entry).unwrap_or(u32::MAX)
}

/// The place of a message: whose journal, and which entry of it.
#[derive(Clone, Copy)]
struct Place {
    receiver: u32,
    entry: u32,
}

/// What distinguishes a forged seal from another.
#[derive(Drop)]
struct Search<'a, C> {
    run: &'a RunRecord,
    checker: &'a C,
}

impl<C: Checker> Search<'_, C> {
    /// Whether an honest replica's seal fits a statement that it never sealed. The statements that it sealed are
    /// searched first, since checking a seal takes many digests.
    fn is_forged(&self, bookmarks: &mut Bookmarks, part: &Part<'_>) -> bool
        ensures { result ≡ is_forged (C.meaning self.now.checker.now) self.now.run.now part.now }
    {
        let journals = self.run.journals.as_slice();
        is_honest(&self.run.setting, &self.run.faulty, part.signer)
            && !bookmarks.was_sealed(journals, part.signer, part.statement)
            && self.checker.fits(part.signer, part.statement, part.seal)
    }

    /// The part under this number.
    fn in_part(
        &self,
        bookmarks: &mut Bookmarks,
        place: Place,
        number: u32,
        part: &Part<'_>,
    ) -> Option<ForgedAt>
        ensures { result ≡ forged_part (C.meaning self.now.checker.now) self.now.run.now place.receiver place.entry (number, part.now) }
    {
        if self.is_forged(bookmarks, part) {
            Some(ForgedAt {
                receiver: place.receiver,
                entry: place.entry,
                part: number,
                signer: part.signer,
            })
        } else {
            None
        }
    }

    fn in_journal(
        &self,
        bookmarks: &mut Bookmarks,
        receiver: u32,
        journal: &Journal,
    ) -> Option<ForgedAt>
        ensures { result ≡ forged_in_journal (C.meaning self.now.checker.now) self.now.run.now (receiver, journal.now) }
    {
        for (at, entry) in journal.entries.as_slice().iter().enumerate() {
            let forged = self.in_entry(bookmarks, receiver, at, entry);
            if forged.is_some() {
                return forged;
            }
        }
        None
    }

    fn in_entry(
        &self,
        bookmarks: &mut Bookmarks,
        receiver: u32,
        at: usize,
        entry: &Entry,
    ) -> Option<ForgedAt>
        ensures { result ≡ forged_in_entry (C.meaning self.now.checker.now) self.now.run.now receiver (at, entry.now) }
    {
        let place = Place {
            receiver,
            entry: number_of(at),
        };
        match delivered(entry) {
            None => None,
            Some(message) => self.in_message(bookmarks, place, &message),
        }
    }

    fn in_message(
        &self,
        bookmarks: &mut Bookmarks,
        place: Place,
        message: &MessageView<'_>,
    ) -> Option<ForgedAt>
        requires { IsWritable (message_of message.now) }
        ensures { result ≡ forged_from (C.meaning self.now.checker.now) self.now.run.now place.receiver place.entry 0 (parts_of message.now) }
    {
        match message {
            MessageView::NewView(call) => self.in_call(bookmarks, place, call),
            MessageView::Ask(call) => self.in_call(bookmarks, place, call),
            MessageView::Order(order) => self.in_order(bookmarks, place, 0, order),
            MessageView::Propose(propose) => self.in_propose(bookmarks, place, propose),
            MessageView::Vote(vote) => self.in_vote(bookmarks, place, vote),
            MessageView::Fetch(_) => None,
            MessageView::Give(block) => self.in_block(bookmarks, place, block),
        }
    }

    fn in_call(
        &self,
        bookmarks: &mut Bookmarks,
        place: Place,
        call: &CallView<'_>,
    ) -> Option<ForgedAt>
        ensures { result ≡ forged_from (C.meaning self.now.checker.now) self.now.run.now place.receiver place.entry 0 (call_parts call.now) }
    {
        let cert = call.cert();
        if let Some(forged) = self.in_cert(bookmarks, place, &cert) {
            return Some(forged);
        }
        let own = Part {
            signer: call.replica(),
            statement: call.statement(),
            seal: call.seal(),
        };
        self.in_part(bookmarks, place, cert.len(), &own)
    }

    fn in_propose(
        &self,
        bookmarks: &mut Bookmarks,
        place: Place,
        propose: &ProposeView<'_>,
    ) -> Option<ForgedAt>
        requires { IsWritableBlock propose.now.block }
        ensures { result ≡ forged_from (C.meaning self.now.checker.now) self.now.run.now place.receiver place.entry 0 (propose_parts propose.now) }
    {
        let block = propose.block();
        if let Some(forged) = self.in_block(bookmarks, place, &block) {
            return Some(forged);
        }
        let own = Part {
            signer: propose.replica(),
            statement: propose.statement(),
            seal: propose.seal(),
        };
        let number = block.cert().len() + block.len();
        self.in_part(bookmarks, place, number, &own)
    }

    fn in_vote(
        &self,
        bookmarks: &mut Bookmarks,
        place: Place,
        vote: &VoteView<'_>,
    ) -> Option<ForgedAt>
        ensures { result ≡ forged_from (C.meaning self.now.checker.now) self.now.run.now place.receiver place.entry 0 (vote_parts vote.now) }
    {
        let own = Part {
            signer: vote.replica(),
            statement: vote.statement(),
            seal: vote.seal(),
        };
        if let Some(forged) = self.in_part(bookmarks, place, 0, &own) {
            return Some(forged);
        }
        match vote.order() {
            None => None,
            Some(order) => self.in_order(bookmarks, place, 1, &order),
        }
    }

    fn in_order(
        &self,
        bookmarks: &mut Bookmarks,
        place: Place,
        number: u32,
        order: &OrderView<'_>,
    ) -> Option<ForgedAt>
        ensures { result ≡ forged_part (C.meaning self.now.checker.now) self.now.run.now place.receiver place.entry (number, order_part order.now) }
    {
        let part = Part {
            signer: order.replica(),
            statement: order.statement(),
            seal: order.seal(),
        };
        self.in_part(bookmarks, place, number, &part)
    }

    /// The votes of a certificate, each for the certificate's view and block.
    fn in_cert(
        &self,
        bookmarks: &mut Bookmarks,
        place: Place,
        cert: &CertView<'_>,
    ) -> Option<ForgedAt>
        ensures { result ≡ forged_from (C.meaning self.now.checker.now) self.now.run.now place.receiver place.entry 0 (cert_parts cert.now) }
    {
        for k in 0..cert.len() {
            if let Some(vote) = cert.vote(k) {
                let forged = self.in_cert_vote(bookmarks, place, k, cert, vote);
                if forged.is_some() {
                    return forged;
                }
            }
        }
        None
    }

    /// The vote under a number, of this replica with this seal.
    fn in_cert_vote(
        &self,
        bookmarks: &mut Bookmarks,
        place: Place,
        number: u32,
        cert: &CertView<'_>,
        vote: (u32, &[u8]),
    ) -> Option<ForgedAt>
        ensures { result ≡ forged_part (C.meaning self.now.checker.now) self.now.run.now place.receiver place.entry
            (number, vote_part cert.now (record { replica = vote.entry.0; seal = vote.entry.1.now })) }
    {
        let (replica, seal) = vote;
        let statement = vote_bytes(replica, cert.view(), &cert.block());
        let part = Part {
            signer: replica,
            statement: &statement,
            seal,
        };
        self.in_part(bookmarks, place, number, &part)
    }

    /// The votes of a block's certificate, followed by its local orders.
    fn in_block(
        &self,
        bookmarks: &mut Bookmarks,
        place: Place,
        block: &BlockView<'_>,
    ) -> Option<ForgedAt>
        requires { IsWritableBlock block.now }
        ensures { result ≡ forged_from (C.meaning self.now.checker.now) self.now.run.now place.receiver place.entry 0 (block_parts block.now) }
    {
        let cert = block.cert();
        if let Some(forged) = self.in_cert(bookmarks, place, &cert) {
            return Some(forged);
        }
        self.in_orders(bookmarks, place, cert.len(), block)
    }

    /// The local orders of a block. The first has this number.
    fn in_orders(
        &self,
        bookmarks: &mut Bookmarks,
        place: Place,
        first: u32,
        block: &BlockView<'_>,
    ) -> Option<ForgedAt>
        requires few { first ≤ 16 }
        requires block { IsWritableBlock block.now }
        ensures { result ≡ forged_from (C.meaning self.now.checker.now) self.now.run.now place.receiver place.entry first (map order_part block.now.orders) }
    {
        for k in 0..block.len() {
            if let Some(order) = block.order(k) {
                let forged = self.in_order(bookmarks, place, first + k, &order);
                if forged.is_some() {
                    return forged;
                }
            }
        }
        None
    }
}
