//! The headline on a record.
ghost use Rattle.run_record.specs.declared.record.RunRecord.{RunRecord};
ghost use Rattle.node_core.specs.Rows.{Check};
ghost use Rattle.headline_laws.specs.Headline.{Agree, Once, Complete, Fair};
ghost use Rattle.headline_laws.specs.Premises.{IsSound};

use crate::committed_chains_are_blocks;
use chain_laws::{
    chains_of_blocks_are_chains, final_lists_are_fair, final_lists_hold_once,
    longer_chains_have_longer_lists,
};

/// Honest batch lists agree, hold each transaction once, hold the complete committed proposals before the first
/// incomplete one, and are fair.
pub fn the_headline_holds()
    ensures agree { (fits : Check) (run : RunRecord) → IsSound fits run → Agree run }
    ensures once { (fits : Check) (run : RunRecord) → IsSound fits run → Once run }
    ensures complete { (fits : Check) (run : RunRecord) → IsSound fits run → Complete run }
    ensures fair { (fits : Check) (run : RunRecord) → IsSound fits run → Fair run }
{
    committed_chains_are_blocks();
    chains_of_blocks_are_chains();
    final_lists_hold_once();
    final_lists_are_fair();
    longer_chains_have_longer_lists();
}
