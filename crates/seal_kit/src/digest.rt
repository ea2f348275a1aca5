ghost use Rattle.std.specs.Prelude.{◌≡◌};
ghost use Rattle.seal_kit.specs.Digest.{keys_digest};

use sha2::{Digest, Sha256};

/// The SHA-256 digest of the public keys of all replicas, one after another. It names a set of keys: a log of a
/// replica begins with it, and two who compare it need not compare the keys.
#[tactic(auto, unfolding(crate::specs::Digest::keys_digest))]
pub fn keys_digest(keys: &[[u8; 60]]) -> [u8; 32]
    ensures { result ≡ keys_digest keys.now }
{
    let mut hasher = Sha256::new();
    for key in keys {
        hasher.update(key);
    }
    hasher.finalize()
}
