ghost use Rattle.std.specs.Prelude.{◌≡◌, ◌+◌, ◌≤◌, length, slice_range};
ghost use Rattle.hss_seal.specs.Heads as heads;
ghost use Rattle.hss_seal.specs.Hss.{hss_fits};
ghost use Rattle.hss_seal.specs.Hss as spec;

use lms_seal::lms_verify;

/// The offset where the top tree's signature ends, after 4 bytes, and the lower tree's public key starts.
const KEY_AT: usize = 2352;

/// The offset where that key ends, and the lower tree's signature starts. The bytes before are the head.
pub(crate) const SECOND_AT: usize = 2408;

/// Whether a signature fits a message under a public key. The signature may be any bytes. It allocates nothing.
pub fn hss_verify(public: &[u8; 60], message: &[u8], signature: &[u8]) -> bool
    ensures { result ≡ hss_fits public.now message.now signature.now }
{
    if signature.len() < SECOND_AT {
        return false;
    }
    head_fits(public, signature) && message_fits(message, signature)
}

/// Whether the head of a signature fits: it states two levels, and the top tree signed the lower tree's key.
#[tactic(auto, unfolding(crate::specs::Heads::head_fits))]
pub(crate) fn head_fits(public: &[u8; 60], signature: &[u8]) -> bool
    requires { SECOND_AT ≤ length signature.now }
    ensures { result ≡ heads.head_fits public.now signature.now }
{
    levels_fit(public, signature) && lower_key_fits(public, signature)
}

/// Whether the key and the signature state that there are two levels.
fn levels_fit(public: &[u8; 60], signature: &[u8]) -> bool
    requires { SECOND_AT ≤ length signature.now }
    ensures { result ≡ spec.levels_fit public.now signature.now }
{
    &public[..4] == 2u32.to_be_bytes().as_slice()
        && &signature[..4] == 1u32.to_be_bytes().as_slice()
}

/// Whether the top tree signed the lower tree's key.
fn lower_key_fits(public: &[u8; 60], signature: &[u8]) -> bool
    requires { SECOND_AT ≤ length signature.now }
    ensures { result ≡ spec.lower_key_fits public.now signature.now }
{
    let inner = key_at(signature, KEY_AT);
    lms_verify(&key_at(public, 4), &inner, &signature[4..KEY_AT])
}

/// Whether the lower tree whose key a signature has signed the message.
#[tactic(auto, unfolding(crate::specs::Hss::message_fits))]
pub(crate) fn message_fits(message: &[u8], signature: &[u8]) -> bool
    requires { SECOND_AT ≤ length signature.now }
    ensures { result ≡ spec.message_fits message.now signature.now }
{
    lms_verify(&key_at(signature, KEY_AT), message, &signature[SECOND_AT..])
}

/// The public key of a tree at an offset.
fn key_at(bytes: &[u8], at: usize) -> [u8; 56]
    requires { at + 56 ≤ length bytes.now }
    ensures { result ≡ slice_range bytes.now at (at + 56) }
{
    let mut key = [0u8; 56];
    key.copy_from_slice(&bytes[at..at + 56]);
    key
}
