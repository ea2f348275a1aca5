//! The journal of a host's replica, over all its openings.
ghost use Rattle.std.specs.Prelude.{◌≡◌, List, Some};
ghost use Rattle.seq_base.specs.Setting.{IsValid};
ghost use Rattle.journal_rules.specs.Rules.{IsLawful};
ghost use Rattle.host_laws.specs.Hosted.{IsFed, scale_for};
ghost use Rattle.host_laws.specs.Hosts.{Host, events_in};
ghost use Rattle.host_laws.specs.Roles.{Role, Secret};
ghost use Rattle.host_laws.specs.Steps.{Deed, IsHostRun, turns_on};

use crate::below::{log_laws, node_laws};

/// The journal of a host's run is that of a node that never crashed, and it is lawful.
pub fn hosts_journals_are_lawful()
    ensures turns { (secret : Secret) (steps : List (Deed × Host)) (host : Host) (role : Role) → IsHostRun secret steps host → host.role ≡ Some role
        → host.journal ≡ turns_on secret role (events_in host.journal) }
    ensures lawful { (secret : Secret) (steps : List (Deed × Host)) (host : Host) (role : Role) → IsHostRun secret steps host → host.role ≡ Some role
        → IsValid role.setting → IsFed role.setting.n host → IsLawful (scale_for role host) host.journal }
{
    log_laws();
    node_laws();
}
