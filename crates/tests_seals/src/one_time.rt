//! One-time signatures, and the seed and the identifier of the test keys.
use crate::cases::{check_cases, word_of};
use hex::encode;
use lm_ots::{OtsSignature, chain, ots_candidate, ots_public, ots_sign};
use sha2::{Digest, Sha256};
use std::alloc::Global;
use std::test::Fail;

/// `chain` has the ends of a chain of twelve steps and of one without steps. `one time` has the public key, and a
/// signature's random number and the digest of its concatenated parts. `one time fits` has whether the signature fits
/// a message.
const ONE_TIME: &str = "\
chain|twelve steps|86d241bae9bd07425c6e430a6dba1a24d1398d6114ef7136f3d412df5bd82bcd
chain|no step|000102030405060708090a0b0c0d0e0f101112131415161718191a1b1c1d1e1f
one time|public|3c89c198d08cc5a3bbeaa00f5d9447cc2a753fcaa9e2e33d533b751f93ca8c46
one time|random|4d42fbdee894d1fa1680ef160b8f41f27db4c56f61907bf6d4ab7e62626c608e
one time|parts|d6d681dfcc9a32a3a0fbcb3ef93b953cf53197225bf693ab72626e663a87cac8
one time fits|themis|yes
one time fits|Themis|no
";

#[test]
fn one_time_signatures_have_the_bytes_of_another_program(rt: HostRuntime) -> Result<(), Fail> {
    check_cases(rt.alloc(), ONE_TIME)
}

pub(crate) const ID: [u8; 16] = [0, 1, 2, 3, 4, 5, 6, 7, 8, 9, 10, 11, 12, 13, 14, 15];

pub(crate) const SEED: [u8; 32] = [
    100, 101, 102, 103, 104, 105, 106, 107, 108, 109, 110, 111, 112, 113, 114, 115, 116, 117, 118,
    119, 120, 121, 122, 123, 124, 125, 126, 127, 128, 129, 130, 131,
];

/// Where the chains of the test start.
const START: [u8; 32] = [
    0, 1, 2, 3, 4, 5, 6, 7, 8, 9, 10, 11, 12, 13, 14, 15, 16, 17, 18, 19, 20, 21, 22, 23, 24, 25,
    26, 27, 28, 29, 30, 31,
];

pub(crate) fn chain_text(alloc: Global, steps: &str) -> Result<String, Fail> {
    let end = if steps == "no step" {
        chain(&ID, 7, 66, 3, 3, &START)
    } else {
        chain(&ID, 7, 66, 3, 15, &START)
    };
    Ok(encode(alloc, end.as_slice())?)
}

fn digest_of_parts(signature: &OtsSignature) -> [u8; 32] {
    let mut hasher = Sha256::new();
    for part in &signature.parts {
        hasher.update(part);
    }
    hasher.finalize()
}

fn signed() -> OtsSignature {
    ots_sign(&ID, 7, &SEED, b"themis")
}

pub(crate) fn signature_text(alloc: Global, part: &str) -> Result<String, Fail> {
    let bytes = match part {
        "public" => ots_public(&ID, 7, &SEED),
        "random" => signed().random,
        _ => digest_of_parts(&signed()),
    };
    Ok(encode(alloc, bytes.as_slice())?)
}

/// Whether the signature of a message verifies under the public key.
fn has_key(signature: &OtsSignature, message: &[u8]) -> bool {
    ots_candidate(&ID, 7, message, &signature.random, &signature.parts) == ots_public(&ID, 7, &SEED)
}

pub(crate) fn fit_text(alloc: Global, message: &str) -> Result<String, Fail> {
    let word = word_of(has_key(&signed(), message.as_bytes()));
    Ok(String::from_str(alloc, word)?)
}
