//! The state of one pass over a journal, and the check of one more entry.
ghost use Rattle.std.specs.Prelude.{◌≡◌, ◌+◌, ◌==◌, ◌||◌, not, get_or, [], List, true, IfOk, IfSome, IfNone, OnOk, IsTrue, length, take};
ghost use Rattle.std.specs.List.{list_all};
ghost use Rattle.std.specs.Option.{option_map_or};
ghost use Rattle.std.specs.Cmp.Lexicographic.{pointwise};
ghost use Rattle.seq_base.specs.Tx.{tx_eq};
ghost use Rattle.block_store.specs.Entries.{IsStore};
ghost use Rattle.chain_state.specs.Standings.{finals};
ghost use Rattle.chain_store.specs.Chains.{chain_state_of};
ghost use Rattle.hotstuff_core.specs.Rules.{view_at, voted_in};
ghost use Rattle.node_core.specs.declared.entry.Entry.{Entry};
ghost use Rattle.node_core.specs.Delivered.{message_in};
ghost use Rattle.node_core.specs.Readable.{IsReadable};
ghost use Rattle.journal_rules.specs.JournalPrefixes.{arrived_by};
ghost use Rattle.journal_rules.specs.Rules.{Scale, up_to, ballots_by, commit_view_of, finals_of};
ghost use Rattle.journal_rules.specs.Sealed.{marks_in};
ghost use Rattle.journal_rules.specs.Shown.{ballot_in};
ghost use Rattle.journal_rules.specs.Tests.{broken_by};
ghost use Rattle.audit_core.specs.Bringing.{MayTake, carried_on, taken};
ghost use Rattle.audit_core.specs.declared.carried.Carried.{Carried};
ghost use Rattle.audit_core.specs.Audited.{nothing_audited, stored_of};
ghost use Rattle.audit_core.specs.Judging.{drawn_on, are_drawn, goes_on, taken_on, rises_on, sealed_rule, rule_on, next_on};
ghost use Rattle.audit_core.specs.Marking.{are_new, marked};
ghost use Rattle.audit_core.specs.Stands.{HasAudited};
ghost use Rattle.audit_core.specs.Voting.{vote_on, last_view};

use crate::arrivals::goes_on;
use crate::ballots::vote_all;
use crate::bringing::carried_on;
use crate::carried::Carried;
use crate::entries::{arrived, delivered, is_idle, seals_its_own};
use crate::marks::Marks;
use crate::orders::may_seal;
use crate::statements::ballot_in;
use crate::valid::view_at;
use crate::voters::Voters;
use agreement_laws::locks_and_commits_move_as_seen;
use block_store::{extending_is_by_parent_steps, stored_blocks_are_found, stored_blocks_stay};
use chain_state::a_state_stands_for_its_chain;
use chain_store::StoredBlocks;
use hotstuff_core::Safety;
use node_core::Entry;
use quorum_cert::good_certificates_have_quorums;
use seal_kit::Checker;
use seq_base::{Block, Bytes, Digest, NoMemory, Setting, Tx, TxList};
use std::alloc::Global;
use std::marker::Model;
use wire_view::MessageView;

/// The state after a prefix of a journal.
pub(crate) struct Auditor<'a> {
    alloc: Global,
    /// The replica whose journal it is.
    replica: u32,
    arrivals: &'a [Tx],
    /// The count of transactions that arrived.
    kept: usize,
    blocks: StoredBlocks,
    /// The view of the last vote, the lock and the commit.
    safety: Safety,
    voters: Voters,
    marks: Marks,
}

impl Drop for Auditor<'_> {
    fn drop(self) {
        let Auditor {
            alloc: _,
            replica: _,
            arrivals: _,
            kept: _,
            blocks: _,
            safety: _,
            voters: _,
            marks: _,
        } = self;
    }
}

impl<'a> Model for Auditor<'a> {
    ghost use Rattle.std.specs.Prelude.{◌≤◌, length};
    ghost use Rattle.audit_core.specs.Audited.{Audited};

    ghost Value = { Audited };

    ghost view = { λ j. record {
      setting = j.blocks.setting;
      replica = j.replica;
      arrivals = j.arrivals.now;
      kept = j.kept;
      store = j.blocks.blocks;
      safety = j.safety;
      voters = j.voters;
      marks = j.marks;
    } };

    ghost invariant = { λ j. j.kept ≤ length j.arrivals.now };
}

impl<'a> Auditor<'a> {
    pub(crate) fn new(
        alloc: Global,
        setting: Setting,
        replica: u32,
        arrivals: &'a [Tx],
    ) -> Auditor<'a>
        ensures nothing { result ≡ nothing_audited setting replica arrivals.now }
        ensures audited { (by : Scale) → by.setting ≡ setting → by.replica ≡ replica → by.arrivals ≡ arrivals.now → HasAudited by [] result }
    {
        Auditor::start(alloc, setting, replica, arrivals)
    }

    fn start(alloc: Global, setting: Setting, replica: u32, arrivals: &'a [Tx]) -> Auditor<'a>
        ensures { result ≡ nothing_audited setting replica arrivals.now }
    {
        Auditor {
            alloc,
            replica,
            arrivals,
            kept: 0,
            blocks: StoredBlocks::new(alloc, setting),
            safety: Safety::new(),
            voters: Voters::none(alloc),
            marks: Marks::none(alloc),
        }
    }

    /// The view of the commit.
    pub(crate) fn commit_view(&self) -> u32
        ensures view { result ≡ view_at self.now.store self.now.safety.committed }
        ensures reported { (by : Scale) (before : List Entry) → HasAudited by before self.now → result ≡ commit_view_of by.setting before }
    {
        self.view_of_commit()
    }

    fn view_of_commit(&self) -> u32
        ensures { result ≡ view_at self.now.store self.now.safety.committed }
    {
        view_at(&self.blocks, &self.safety.committed())
    }

    /// Whether these are the batches of the chain of the commit.
    pub(crate) fn has_finals(&self, batches: &[TxList]) -> Result<bool, NoMemory>
        ensures finals { IfOk result
            (λ same. same ≡ pointwise (pointwise tx_eq) batches.now (finals (chain_state_of (stored_of self.now) self.now.safety.committed))) }
        ensures reported { (by : Scale) (before : List Entry) → HasAudited by before self.now
            → IfOk result (λ same. same ≡ pointwise (pointwise tx_eq) batches.now (finals_of by.setting before)) }
    {
        a_state_stands_for_its_chain();
        self.are_finals(batches)
    }

    fn are_finals(&self, batches: &[TxList]) -> Result<bool, NoMemory>
        ensures { IfOk result
            (λ same. same ≡ pointwise (pointwise tx_eq) batches.now (finals (chain_state_of (stored_of self.now) self.now.safety.committed))) }
    {
        let finals = self.blocks.finals(&self.safety.committed())?;
        Ok(batches == finals.as_slice())
    }

    /// Checks one more entry, and returns the least rule that it breaks. Once a rule is broken, nothing is known of
    /// later entries.
    pub(crate) fn audit<C: Checker>(
        &mut self,
        checker: &C,
        entry: &Entry,
    ) -> Result<Option<u32>, NoMemory>
        ensures rule { (by : Scale) (before : List Entry) → by.fits ≡ C.meaning checker.now → HasAudited by before self.old
            → IfOk result (λ rule. rule ≡ broken_by by before entry.now) }
        ensures goes_on { (by : Scale) (before : List Entry) → by.fits ≡ C.meaning checker.now → HasAudited by before self.old
            → IfOk result (λ rule. IfNone rule (HasAudited by (up_to before entry.now) self.new)) }
    {
        locks_and_commits_move_as_seen();
        stored_blocks_stay();
        stored_blocks_are_found();
        good_certificates_have_quorums();
        a_state_stands_for_its_chain();
        extending_is_by_parent_steps();
        self.keeps_its_rules();
        self.audit_by_kept(checker, entry)
    }

    /// Shows that the laws of stores hold for the stored blocks. The call does nothing.
    fn keeps_its_rules(&self)
        ensures { IsStore self.now.store }
    {
        self.blocks.store().keeps_its_rules();
    }

    /// The same, stated on the state alone.
    fn audit_by_kept<C: Checker>(
        &mut self,
        checker: &C,
        entry: &Entry,
    ) -> Result<Option<u32>, NoMemory>
        ensures rule { IfOk result (λ rule. rule ≡ rule_on (C.meaning checker.now) self.old entry.now) }
        ensures next { IfOk result (λ rule. IfNone rule (self.new ≡ next_on self.old entry.now)) }
        ensures writable { IfOk result (λ rule. IsReadable entry.now.event) }
    {
        let message = delivered(entry);
        if !self.knows(entry) {
            return Ok(Some(1));
        }
        let Some(carried) = self.takes(checker, entry, &message)? else {
            return Ok(Some(2));
        };
        self.audit_sealed(entry, carried)
    }

    /// Rule 2: what an entry delivers, if it may.
    fn takes<C: Checker>(
        &mut self,
        checker: &C,
        entry: &Entry,
        message: &Option<MessageView<'_>>,
    ) -> Result<Option<Carried>, NoMemory>
        requires { message.now ≡ message_in entry.now.event }
        ensures found { IfOk result (λ found. found ≡ taken_on (C.meaning checker.now) self.old entry.now) }
        ensures taken { IfOk result (λ found. IfSome found (MayTake self.old.store)) }
        ensures marks { IfOk result
            (λ found. IfSome found (λ b. self.new ≡ record self.old { marks = marked self.old.marks (marks_in entry.now.turned.sealed) })) }
    {
        if !is_idle(entry) {
            return Ok(None);
        }
        if !seals_its_own(self.replica, entry) {
            return Ok(None);
        }
        if !self.marks_anew(entry)? {
            return Ok(None);
        }
        self.brings(checker, entry, message)
    }

    fn marks_anew(&mut self, entry: &Entry) -> Result<bool, NoMemory>
        ensures test { IfOk result (λ new. new ≡ are_new self.old.marks (marks_in entry.now.turned.sealed)) }
        ensures marks { IfOk result (λ new. new ≡ true → self.new ≡ record self.old { marks = marked self.old.marks (marks_in entry.now.turned.sealed) }) }
    {
        self.marks.insert_all(entry.turned.sealed.as_slice())
    }

    fn brings<C: Checker>(
        &self,
        checker: &C,
        entry: &Entry,
        message: &Option<MessageView<'_>>,
    ) -> Result<Option<Carried>, NoMemory>
        requires { message.now ≡ message_in entry.now.event }
        ensures carried { IfOk result (λ found. found ≡ carried_on (C.meaning checker.now) (stored_of self.now) entry.now) }
        ensures taken { IfOk result (λ found. IfSome found (MayTake self.now.store)) }
    {
        carried_on(self.alloc, &self.blocks, checker, entry, message)
    }

    /// Rules 3 to 5: votes are checked by the lock and the blocks before the entry, orders by the blocks after it.
    fn audit_sealed(&mut self, entry: &Entry, carried: Carried) -> Result<Option<u32>, NoMemory>
        requires { MayTake self.old.store carried }
        ensures rule { IfOk result (λ rule. rule ≡ sealed_rule self.old entry.now carried) }
        ensures next { IfOk result (λ rule. IfNone rule (self.new ≡ taken carried (record self.old {
          safety = voted_in (last_view self.old.safety.voted (ballots_by entry.now)) self.old.safety;
        }))) }
    {
        let rises = self.rises(entry);
        let votes = self.votes(entry, &carried);
        self.take(carried)?;
        if !self.draws(entry)? {
            return Ok(Some(3));
        }
        if !rises {
            return Ok(Some(4));
        }
        if !votes {
            return Ok(Some(5));
        }
        Ok(None)
    }

    /// Rule 1: arrivals continue the arrival list.
    #[tactic(auto, using(crate::proofs::Rest::kept_sum, crate::proofs::Rest::kept_within))]
    fn knows(&mut self, entry: &Entry) -> bool
        ensures test { result ≡ goes_on self.old.arrivals self.old.kept entry.now.turned.kept (arrived_by entry.now.event) }
        ensures kept { IsTrue result → self.new ≡ record self.old { kept = self.old.kept + length (arrived_by entry.now.event) } }
    {
        let kept = entry.turned.kept as usize;
        if !goes_on(self.arrivals, self.kept, kept, arrived(entry)) {
            return false;
        }
        self.kept = kept;
        true
    }

    /// Rule 4: the view of each vote is above those before it and above the lock's.
    fn rises(&mut self, entry: &Entry) -> bool
        ensures test { result ≡ rises_on self.old entry.now }
        ensures others { self.new ≡ record self.old { safety = voted_in self.new.safety.voted self.old.safety } }
        ensures voted { IsTrue result → self.new.safety.voted ≡ last_view self.old.safety.voted (ballots_by entry.now) }
    {
        let lock_view = view_at(&self.blocks, &self.safety.lock());
        vote_all(&mut self.safety, lock_view, entry.turned.sealed.as_slice())
    }

    /// Rule 5: each vote is for the block that was proposed, and the voting rule allows it.
    fn votes(&self, entry: &Entry, carried: &Carried) -> bool
        ensures { result ≡ list_all (vote_on self.now carried.now) (ballots_by entry.now) }
    {
        self.allows_all(entry.turned.sealed.as_slice(), carried)
    }

    fn allows_all(&self, statements: &[Bytes], carried: &Carried) -> bool
        ensures { result ≡ list_all (λ x. option_map_or (vote_on self.now carried.now) (ballot_in x) true) statements.now }
    {
        let mut statements = statements.iter();
        statements.all(|statement| self.allows(statement.as_slice(), carried))
    }

    /// Whether a statement is no vote, or a vote that rule 5 allows.
    fn allows(&self, statement: &[u8], carried: &Carried) -> bool
        ensures { result ≡ option_map_or (vote_on self.now carried.now) (ballot_in statement.now) true }
    {
        match ballot_in(statement) {
            Some((view, block)) => self.is_vote_for(view, block, carried),
            None => true,
        }
    }

    fn is_vote_for(&self, view: u32, named: &[u8], carried: &Carried) -> bool
        ensures { result ≡ vote_on self.now carried.now (record { view = view; block = record { 0 = named.now } }) }
    {
        match carried {
            Carried::Nothing => false,
            Carried::Cert { .. } => false,
            Carried::Block {
                digest,
                block,
                is_proposed,
            } => {
                *is_proposed
                    && named == digest.0.as_slice()
                    && view == block.view
                    && self.safety.is_safe(self.blocks.store(), block)
            }
            Carried::Vote { .. } => false,
        }
    }

    /// Applies what an entry delivered to the state.
    fn take(&mut self, carried: Carried) -> Result<(), NoMemory>
        requires { MayTake self.old.store carried }
        ensures { OnOk result (self.new ≡ taken carried self.old) }
    {
        match carried {
            Carried::Nothing => Ok(()),
            Carried::Cert { view, block } => self.see(view, &block),
            Carried::Block { digest, block, .. } => self.take_block(digest, block),
            Carried::Vote {
                replica,
                view,
                block,
            } => self.take_vote(replica, view, block),
        }
    }

    fn take_block(&mut self, digest: Digest, block: Block) -> Result<(), NoMemory>
        requires { MayTake self.old.store (Carried.Block digest block true) }
        ensures { OnOk result (self.new ≡ taken (Carried.Block digest block true) self.old) }
    {
        self.see(block.cert.view, &block.cert.block)?;
        let commit = self.safety.committed();
        self.blocks.insert(block, &digest, &commit)
    }

    fn take_vote(&mut self, replica: u32, view: u32, block: Digest) -> Result<(), NoMemory>
        requires { MayTake self.old.store (Carried.Vote replica view block) }
        ensures { OnOk result (self.new ≡ taken (Carried.Vote replica view block) self.old) }
    {
        let count = self.voters.count(replica, block)?;
        if count >= self.blocks.setting().quorum() {
            self.see(view, &block)?;
        }
        Ok(())
    }

    fn see(&mut self, view: u32, block: &Digest) -> Result<(), NoMemory>
        ensures { OnOk result (self.new ≡ taken (Carried.Cert view block.now) self.old) }
    {
        let seen = self.safety.see(self.blocks.store(), view, block);
        match seen.committed {
            Some(committed) => self.blocks.settle(&committed),
            None => Ok(()),
        }
    }

    /// Rule 3: each order is spelled as the one that is drawn for its replica, view and parent.
    fn draws(&self, entry: &Entry) -> Result<bool, NoMemory>
        ensures { IfOk result (λ drawn. drawn ≡ are_drawn (stored_of self.now) (take self.now.kept self.now.arrivals) entry.now.turned.sealed) }
    {
        for statement in entry.turned.sealed.as_slice() {
            if !self.may_seal(statement.as_slice())? {
                return Ok(false);
            }
        }
        Ok(true)
    }

    /// Whether a statement is no order, or the one that is drawn from what is known.
    fn may_seal(&self, statement: &[u8]) -> Result<bool, NoMemory>
        ensures { IfOk result
            (λ may. may ≡ (not (get_or statement.now 0 0 == 3) || drawn_on (stored_of self.now) (take self.now.kept self.now.arrivals) statement.now)) }
    {
        let known = &self.arrivals[..self.kept];
        may_seal(self.alloc, &self.blocks, known, statement)
    }
}
