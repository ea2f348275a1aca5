//! Chains of the blocks that prefixes of honest journals stored: what a layer above needs of a committed chain.
ghost use Rattle.std.specs.Prelude.{List, ◌∷◌, ◌++◌, Contains};
ghost use Rattle.seq_base.specs.Setting.{Parameters};
ghost use Rattle.agreement_laws.specs.Agreeing.{AreStoredAlike, WhereChain, WherePrefixes};
ghost use Rattle.agreement_laws.specs.JournalPrefixes.{stored, commit};
ghost use Rattle.agreement_laws.specs.Journals.{Named, Entry};
ghost use Rattle.agreement_laws.specs.Records.{Record, IsJournalPrefix, IsSoundRecord};
ghost use Rattle.agreement_laws.specs.Seen.{IsKeptPrefix};
ghost use Rattle.agreement_laws.specs.Standing.{StandsAfter};

/// In a prefix of an honest journal each entry with reason Done meets `MayBeDone`, and a digest names one stored block.
pub fn honest_prefixes_are_kept()
    ensures { (s : Parameters) (x : Record) (prefix : List Entry) → IsSoundRecord s x → IsJournalPrefix s x prefix → IsKeptPrefix s prefix }
{}

/// The commit of a prefix is stored in it.
pub fn commits_are_stored()
    ensures { (s : Parameters) (prefix : List Entry) → Contains (stored prefix) (commit s prefix) }
{}

/// Each block of the chain of a stored block was delivered by an entry with reason Done, and the blocks before it are
/// the chain of its parent.
pub fn chains_stand_on_parents()
    ensures { (s : Parameters) (prefix : List Entry) (end b : Named) (before after : List Named)
        → IsKeptPrefix s prefix → WhereChain prefix end (before ++ b ∷ after) (StandsAfter prefix before b) }
{}

/// If two prefixes of honest journals stored blocks with the same digest, these are the same block, with the same chain
/// in both.
pub fn stored_blocks_have_one_chain()
    ensures { (s : Parameters) (x : Record) (prefix other : List Entry) (b c : Named)
        → WherePrefixes s x prefix other (AreStoredAlike prefix other b c) }
{}
