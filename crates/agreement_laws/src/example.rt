//! A record to which the laws apply.
ghost use Rattle.std.specs.Prelude.{◌≡◌, ◌∷◌, []};
ghost use Rattle.seq_base.specs.Setting.{IsValid};
ghost use Rattle.hotstuff_core.specs.Examples.{five};
ghost use Rattle.agreement_laws.specs.Example.{one, journal, small};
ghost use Rattle.agreement_laws.specs.JournalPrefixes.{commit, committed_chain};
ghost use Rattle.agreement_laws.specs.Records.{IsSoundRecord};

use hotstuff_core::a_lawful_history_may_fork;

/// The premises of the laws can be met, by a record in which a block is committed.
pub fn a_sound_record_may_commit()
    ensures valid { IsValid five }
    ensures sound { IsSoundRecord five small }
    ensures committed { commit five journal ≡ one }
    ensures chain { committed_chain five journal ≡ one ∷ [] }
{
    a_lawful_history_may_fork();
}
