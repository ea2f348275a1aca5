ghost use Rattle.std.specs.Prelude.{◌≡◌, IfOk, take};
ghost use Rattle.lms_seal.specs.Draws as spec;

use crate::LmsKey;
use seal_kit::Height;
use seq_base::NoMemory;
use sha2::{Digest, Sha256};
use std::alloc::Global;

/// The key of a replica. Its identifier and its secret seed are drawn from one seed for all replicas.
pub fn drawn_key(alloc: Global, seed: u64, replica: u32, height: Height) -> Result<LmsKey, NoMemory>
    ensures { IfOk result (λ key. key ≡ spec.drawn_key seed replica height) }
{
    LmsKey::new(
        alloc,
        &drawn_id(seed, replica),
        &drawn_seed(seed, replica),
        height,
    )
}

/// The identifier that is drawn for a replica.
pub fn drawn_id(seed: u64, replica: u32) -> [u8; 16]
    ensures { result ≡ spec.drawn_id seed replica }
{
    prefix(&drawn_hash(b"themis-id", seed, replica))
}

/// The seed that is drawn for a replica.
pub fn drawn_seed(seed: u64, replica: u32) -> [u8; 32]
    ensures { result ≡ spec.drawn_seed seed replica }
{
    drawn_hash(b"themis-seed", seed, replica)
}

fn drawn_hash(word: &[u8], seed: u64, replica: u32) -> [u8; 32]
    ensures { result ≡ spec.drawn_hash word.now seed replica }
{
    let mut hasher = Sha256::new();
    hasher.update(word);
    hasher.update(seed.to_be_bytes());
    hasher.update(replica.to_be_bytes());
    hasher.finalize()
}

/// The first 16 bytes.
pub fn prefix(hash: &[u8; 32]) -> [u8; 16]
    ensures { result ≡ take 16 hash.now }
{
    let mut id = [0u8; 16];
    id.copy_from_slice(&hash[..16]);
    id
}
