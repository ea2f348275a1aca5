//! Checks of bytes, which show whether they are those that were written, and the running digest of a log, which shows
//! whether they are in their place.
ghost use Rattle.std.specs.Prelude.{◌≡◌, ◌++◌, take};
ghost use Rattle.sha2.specs.Sha256.{sha256};
ghost use Rattle.durable_node.specs.Check.{check_of, header_digest, next_digest};

use sha2::{Digest, Sha256};

/// The length of a check in bytes.
pub(crate) const CHECK_BYTES: usize = 8;

/// The first eight bytes of the SHA-256 digest of the bytes.
#[tactic(auto, unfolding(crate::specs::Check::check_of))]
pub(crate) fn check_of(bytes: &[u8]) -> [u8; 8]
    ensures { result ≡ check_of bytes.now }
{
    first_bytes(&Sha256::digest(bytes))
}

/// The check of a record's length, after a running digest.
#[tactic(auto, unfolding(crate::specs::Check::check_of))]
pub(crate) fn size_check(digest: &[u8; 32], size: &[u8]) -> [u8; 8]
    ensures { result ≡ check_of (digest.now ++ size.now) }
{
    first_bytes(&digest_of_both(digest, size))
}

/// The first bytes of a digest.
pub(crate) fn first_bytes(digest: &[u8; 32]) -> [u8; 8]
    ensures { result ≡ take 8 digest.now }
{
    let mut check = [0u8; CHECK_BYTES];
    check.copy_from_slice(&digest[..CHECK_BYTES]);
    check
}

/// The running digest of a log that has this header and no records.
pub fn header_digest(header: &[u8]) -> [u8; 32]
    ensures { result ≡ header_digest header.now }
{
    Sha256::digest(header)
}

/// The running digest after a record with this body.
#[tactic(auto, unfolding(crate::specs::Check::next_digest))]
pub(crate) fn next_digest(digest: &[u8; 32], body: &[u8]) -> [u8; 32]
    ensures { result ≡ next_digest digest.now body.now }
{
    digest_of_both(digest, body)
}

/// The SHA-256 digest of a digest and more bytes, as one message.
fn digest_of_both(digest: &[u8; 32], more: &[u8]) -> [u8; 32]
    ensures { result ≡ sha256 (digest.now ++ more.now) }
{
    let mut hasher = Sha256::new();
    hasher.update(digest.as_slice());
    hasher.update(more);
    hasher.finalize()
}
