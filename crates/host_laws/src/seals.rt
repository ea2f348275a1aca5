//! The leaves of a host's replica.
ghost use Rattle.std.specs.Prelude.{◌≡◌, List, Contains};
ghost use Rattle.host_laws.specs.Hosts.{Host, Signed};
ghost use Rattle.host_laws.specs.Roles.{Secret};
ghost use Rattle.host_laws.specs.Steps.{Deed, IsHostRun};

use crate::below::log_laws;

/// No leaf of the key that grows from a secret seals two statements over a whole run of its host, whatever setting, views,
/// replica, height and public keys the host passed to each opening. The statements that an opening seals again are counted.
pub fn a_hosts_leaves_seal_once()
    ensures { (secret : Secret) (steps : List (Deed × Host)) (host : Host) (a b : Signed) → IsHostRun secret steps host
        → Contains host.seals a → Contains host.seals b → a.leaf ≡ b.leaf → a.statement ≡ b.statement }
{
    log_laws();
}
