//! Bytes as hexadecimal text, and parts of them.
use hex::encode;
use sha2::{Digest, Sha256};
use std::alloc::{AllocError, Global};

/// The digest of bytes, in hexadecimal.
pub(crate) fn digest_of(alloc: Global, bytes: &[u8]) -> Result<String, AllocError> {
    encode(alloc, Sha256::digest(bytes).as_slice())
}

/// The bytes of a range, or no bytes if the range is not within them.
pub(crate) fn part(bytes: &[u8], from: usize, to: usize) -> &[u8] {
    if from <= to && to <= bytes.len() {
        &bytes[from..to]
    } else {
        &[]
    }
}

/// Flips the last bit of the byte at a place.
pub(crate) fn turn(bytes: &mut Vec<u8>, at: usize) {
    if let Some(byte) = bytes.get_mut(at) {
        *byte ^= 1;
    }
}
