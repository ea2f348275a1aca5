ghost use Rattle.std.specs.Prelude.{◌≡◌};
ghost use Rattle.wire_write.specs.Digests.{digest_of};

use seq_base::Digest;
use sha2::{Digest as _, Sha256};

/// The digest of a block with these bytes: SHA-256. Takes no memory.
pub fn digest(block_bytes: &[u8]) -> Digest
    ensures { result ≡ digest_of block_bytes.now }
{
    Digest(Sha256::digest(block_bytes))
}
