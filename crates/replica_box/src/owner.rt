//! The bytes that name the keys of all replicas in the header of a log.
ghost use Rattle.std.specs.Prelude.{◌≡◌, ◌++◌};
ghost use Rattle.std.specs.List.{concat};
ghost use Rattle.std.specs.Int.{w32, to_be_bytes};
ghost use Rattle.durable_node.specs.Header.{height_number};
ghost use Rattle.replica_box.specs.Opening.{owner_keys};

use durable_node::height_number;
use seal_kit::Height;
use sha2::{Digest, Sha256};

/// The SHA-256 digest of the number of the keys' height and all public keys, one after another.
#[tactic(auto, unfolding(crate::specs::Opening::owner_keys))]
pub(crate) fn owner_keys(height: Height, publics: &[[u8; 60]]) -> [u8; 32]
    ensures { result ≡ owner_keys height publics.now }
{
    let mut hasher = Sha256::new();
    hasher.update(height_number(height).to_be_bytes());
    for public in publics {
        hasher.update(public);
    }
    hasher.finalize()
}
