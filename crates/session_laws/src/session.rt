//! What holds of one session up to its marker.
ghost use Rattle.std.specs.Prelude.{List};
ghost use Rattle.seq_base.specs.declared.tx.Tx.{Tx};
ghost use Rattle.run_record.specs.declared.record.RunRecord.{RunRecord};
ghost use Rattle.node_core.specs.Rows.{Check};
ghost use Rattle.headline_laws.specs.Headline.{Begins};
ghost use Rattle.headline_laws.specs.Premises.{IsSound};
ghost use Rattle.session_rules.specs.Cuts.{cut_at};
ghost use Rattle.session_laws.specs.Claims.{CutsAgree};

use headline_laws::the_headline_holds;

/// All honest replicas cut a session at the same batch.
pub fn cuts_agree()
    ensures { (fits : Check) (run : RunRecord) (m : Tx) → IsSound fits run → CutsAgree m run }
{
    the_headline_holds();
}

/// As a list of batches grows, its cut only grows: what was handed out stays.
pub fn cuts_grow()
    ensures { (m : Tx) (batches later : List (List Tx)) → Begins batches later → Begins (cut_at m batches) (cut_at m later) }
{}
