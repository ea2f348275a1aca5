//! The headline on replicas whose hosts keep their promises.
ghost use Rattle.std.specs.Prelude.{ℕ, List};
ghost use Rattle.headline_laws.specs.Headline.{Begins, IsOrdered};
ghost use Rattle.host_laws.specs.Hosted.{AreMoments, AreSoundlyHosted, Common, hosted_run};
ghost use Rattle.host_laws.specs.Hosts.{Host};

use crate::below::{log_laws, node_laws};
use headline_laws::{final_batches_stay, the_headline_holds};

/// One host for each of n replicas, at any moments of their runs. At most f of them do not keep their promises, and the record
/// of their turns shows no forged seal and no two blocks with the same digest.
pub fn hosted_replicas_are_ordered()
    // Then the headline holds of the batches that their replicas gave last.
    ensures ordered { (common : Common) (faulty : List ℕ) (hosts : List Host) → AreSoundlyHosted common faulty hosts
        → IsOrdered (hosted_run common.setting faulty hosts) }
    // And what an honest replica gave at an earlier moment of its run is a prefix of it, also from before a crash.
    ensures stay { (common : Common) (faulty : List ℕ) (hosts : List Host) (earlier later : Host) → AreSoundlyHosted common faulty hosts
        → AreMoments common faulty hosts earlier later → Begins earlier.batches later.batches }
{
    log_laws();
    node_laws();
    the_headline_holds();
    final_batches_stay();
}
