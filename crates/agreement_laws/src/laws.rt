//! What holds of every record whose honest journals are lawful, whatever the faulty replicas do. Each law is the
//! contract of a function that only names what it rests on.
ghost use Rattle.std.specs.Prelude.{◌≡◌, ℕ, List, [], ◌∷◌, ◌++◌};
ghost use Rattle.seq_base.specs.Setting.{Parameters, IsValid};
ghost use Rattle.hotstuff_core.specs.Facts as Facts;
ghost use Rattle.agreement_laws.specs.Agreeing.{AreOnOneChain, OneBeginsOther, WherePrefixes};
ghost use Rattle.agreement_laws.specs.JournalPrefixes.{stored, taken_by, lock, commit, committed_chain};
ghost use Rattle.agreement_laws.specs.Histories.{history};
ghost use Rattle.agreement_laws.specs.Journals.{Entry};
ghost use Rattle.agreement_laws.specs.Records.{Record, IsHonest, IsSoundRecord, known};
ghost use Rattle.agreement_laws.specs.Seen.{lock_seen, commit_seen, IsKeptPrefix};

use hotstuff_core::{certified_blocks_extend_the_first, commits_by_digest_agree};
use seq_base::Digest;

/// The history of a record satisfies the facts of `hotstuff_core`.
pub fn histories_of_records_are_lawful()
    ensures { (s : Parameters) (x : Record) → IsSoundRecord s x → Facts.IsLawfulHistory s (history s x) }
{}

/// The commits of any two prefixes of honest journals, also of the same journal, lie on one chain: one extends the
/// other, over the blocks of the record.
pub fn commits_of_prefixes_agree()
    ensures { (s : Parameters) (x : Record) (prefix other : List Entry) → IsValid s
        → WherePrefixes s x prefix other (AreOnOneChain (known s x) (commit s prefix) (commit s other)) }
{
    histories_of_records_are_lawful();
    commits_by_digest_agree();
    certified_blocks_extend_the_first::<Digest>();
}

/// The same for two whole journals.
pub fn commits_of_journals_agree()
    ensures { (s : Parameters) (x : Record) (i j : ℕ) → IsValid s → IsSoundRecord s x → IsHonest s x i → IsHonest s x j
        → AreOnOneChain (known s x) (commit s (x.journal i)) (commit s (x.journal j)) }
{
    commits_of_prefixes_agree();
}

/// The committed chains of two such prefixes, each from the blocks that it stored, agree: one is a prefix of the other,
/// with the same blocks and the same local orders.
pub fn committed_chains_agree()
    ensures { (s : Parameters) (x : Record) (prefix other : List Entry) → IsValid s
        → WherePrefixes s x prefix other (OneBeginsOther (committed_chain s prefix) (committed_chain s other)) }
{
    commits_of_prefixes_agree();
}

/// The lock and the commit of a prefix are those of a replica that updates them step by step, from the first block.
/// When an entry delivers a certificate, the parent of its block replaces the lock if its view is greater, and the head
/// of the three-chain that ends with its block replaces the commit if its view is greater.
pub fn locks_and_commits_move_as_seen()
    ensures lock { (s : Parameters) (before : List Entry) (e : Entry) → IsKeptPrefix s (before ++ e ∷ [])
        → lock s (before ++ e ∷ []) ≡ lock_seen (stored before) (lock s before) (taken_by s (before ++ e ∷ []) e) }
    ensures commit { (s : Parameters) (before : List Entry) (e : Entry) → IsKeptPrefix s (before ++ e ∷ [])
        → commit s (before ++ e ∷ []) ≡ commit_seen (stored before) (commit s before) (taken_by s (before ++ e ∷ []) e) }
{}
