//! From receipts to final lists.
ghost use Rattle.seq_base.specs.declared.tx.Tx.{Tx};
ghost use Rattle.run_record.specs.declared.record.RunRecord.{RunRecord};
ghost use Rattle.node_core.specs.Rows.{Check};
ghost use Rattle.headline_laws.specs.Premises.{IsSound};
ghost use Rattle.intake_laws.specs.Claims.{ShowInOrder, ShowHeardInOrder, NoListReverses};

use crate::{first_lifetimes_need_less, receipts_decide_arrivals};
use headline_laws::the_headline_holds;

/// Where every honest replica received b after it had heard all honest receipts of a, no honest list holds b before a:
/// if no replica restarted (`heard`), and over restarts, where a few may be late (`shown`).
pub fn receipts_decide()
    ensures heard { (fits : Check) (run : RunRecord) (a b : Tx) → IsSound fits run → ShowHeardInOrder run a b → NoListReverses run a b }
    ensures shown { (fits : Check) (run : RunRecord) (a b : Tx) → IsSound fits run → ShowInOrder run a b → NoListReverses run a b }
{
    receipts_decide_arrivals();
    first_lifetimes_need_less();
    the_headline_holds();
}
