//! Laws of every key, however it is made.
ghost use Rattle.std.specs.Prelude.{◌≡◌, ℕ, ◌+◌, ◌*◌, ◌^◌, ◌<◌, List, length, true};
ghost use Rattle.seal_kit.specs.declared.height.Height.{Height};
ghost use Rattle.lms_seal.specs.Key.{Key, IsKey, key_public, key_signature, key_seal};
ghost use Rattle.lms_seal.specs.Draws.{drawn_key};
ghost use Rattle.lms_seal.specs.Bytes.{number_at};
ghost use Rattle.lms_seal.specs.Fits.{fits};

/// A signature of a key with one of its leaves fits under its public key, and so does the seal of every number.
pub fn signatures_fit()
    ensures leaves { (key : Key) (q : ℕ) (message : List ℕ) → IsKey key → q < 2 ^ key.levels
        → fits (key_public key) message (key_signature key q message) ≡ true }
    ensures numbers { (key : Key) (number : ℕ) (message : List ℕ) → IsKey key
        → fits (key_public key) message (key_seal key number message) ≡ true }
{}

/// A seal starts with its leaf, which is its number. So seals with different numbers have different leaves.
pub fn leaves_are_numbers()
    ensures { (key : Key) (number : ℕ) (message : List ℕ) → IsKey key → number < 2 ^ key.levels
        → number_at (key_seal key number message) 0 ≡ number }
{}

/// The lengths of public keys and signatures in bytes.
pub fn lengths_are_fixed()
    ensures public { (key : Key) → IsKey key → length (key_public key) ≡ 56 }
    ensures signature { (key : Key) (q : ℕ) (message : List ℕ)
        → length (key_signature key q message) ≡ 2188 + 32 * key.levels }
{}

/// The keys that are drawn for replicas are keys.
pub fn drawn_keys_are_keys()
    ensures { (s r : ℕ) (height : Height) → IsKey (drawn_key s r height) }
{}
