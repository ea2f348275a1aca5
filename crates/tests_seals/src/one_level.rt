//! Keys, sealers and checkers with one tree.
use crate::bytes::{digest_of, part, turn};
use crate::cases::{check_cases, counts_text, word_of};
use crate::one_time::{ID, SEED};
use hex::encode;
use lms_seal::{GrowingKey, LmsChecker, LmsKey, LmsSealer, lms_verify};
use seal_kit::{Checker, Height, SealFault, Sealer};
use seq_base::NoMemory;
use sha2::{Digest, Sha256};
use std::alloc::Global;
use std::test::Fail;

/// `key` has the number of a key's leaves and the public key, from the standard's example or another program. For
/// those of another program it also has the digest of a leaf's signature, and whether the signature fits. `one level`
/// has the number of good seals that a sealer makes until it is exhausted, the number that it counts, and the digest
/// of all. `one level changed` has the number of changes, of every 11th byte, with which a signature fits, and whether
/// it fits unchanged. `growing key` has the number of leaves after a number of calls that each add
/// one, and then the finished key, which is the one that grows in a single call.
const ONE_LEVEL: &str = "\
key|standard|1024 0000000600000003d08fabd4a2091ff0a8cb4ed834e7453432a58885cd9ba0431235466bff9651c6c92124404d45fa53cf161c28f1ad5a8e
key|five|32 0000000500000003000102030405060708090a0b0c0d0e0f36d0c0e91e6b0538bf6118ab0b7f4b01aa9536eec04844fa9d5faa0f849c7c95 3524a280d4c0d8a9b38da4480ec70435755bab2518e9b1181e736cc540a1cd25 yes
key|ten|1024 0000000600000003000102030405060708090a0b0c0d0e0f6a85d5da998b797be867cd7032184a3643f39ae2696f46da35de5d852afe3afd a8cf4dfcab0c2e20f2d31d32dd3597850350f0542996f0e00befa384d2010e0e yes
growing key|0|0 32 0000000500000003000102030405060708090a0b0c0d0e0f36d0c0e91e6b0538bf6118ab0b7f4b01aa9536eec04844fa9d5faa0f849c7c95 3524a280d4c0d8a9b38da4480ec70435755bab2518e9b1181e736cc540a1cd25 yes
growing key|19|19 32 0000000500000003000102030405060708090a0b0c0d0e0f36d0c0e91e6b0538bf6118ab0b7f4b01aa9536eec04844fa9d5faa0f849c7c95 3524a280d4c0d8a9b38da4480ec70435755bab2518e9b1181e736cc540a1cd25 yes
growing key|33|32 32 0000000500000003000102030405060708090a0b0c0d0e0f36d0c0e91e6b0538bf6118ab0b7f4b01aa9536eec04844fa9d5faa0f849c7c95 3524a280d4c0d8a9b38da4480ec70435755bab2518e9b1181e736cc540a1cd25 yes
one level||32 32 6bbf9ce38fae19bf63f4bfb645826a709831e2a58f5490f06b0553794083e371
one level changed||0 yes
";

#[test]
fn keys_and_seals_of_one_level_are_those_of_another_program(rt: HostRuntime) -> Result<(), Fail> {
    check_cases(rt.alloc(), ONE_LEVEL)
}

/// The identifier of the top tree of the second example in the standard's appendix F. Its seed follows.
const STANDARD_ID: [u8; 16] = [
    0xd0, 0x8f, 0xab, 0xd4, 0xa2, 0x09, 0x1f, 0xf0, 0xa8, 0xcb, 0x4e, 0xd8, 0x34, 0xe7, 0x45, 0x34,
];

const STANDARD_SEED: [u8; 32] = [
    0x55, 0x8b, 0x89, 0x66, 0xc4, 0x8a, 0xe9, 0xcb, 0x89, 0x8b, 0x42, 0x3c, 0x83, 0x44, 0x3a, 0xae,
    0x01, 0x4a, 0x72, 0xf1, 0xb1, 0xab, 0x5c, 0xc8, 0x5c, 0xf1, 0xd8, 0x92, 0x90, 0x3b, 0x54, 0x39,
];

fn key_of(alloc: Global, name: &str) -> Result<LmsKey, NoMemory> {
    match name {
        "standard" => LmsKey::new(alloc, &STANDARD_ID, &STANDARD_SEED, Height::H10),
        "ten" => LmsKey::new(alloc, &ID, &SEED, Height::H10),
        _ => LmsKey::new(alloc, &ID, &SEED, Height::H5),
    }
}

/// The number of leaves and the public key. For the keys with known signatures also the signature of a leaf: number 19
/// of the tree of height five, and 700 of the tree of height ten.
pub(crate) fn key_text(alloc: Global, name: &str) -> Result<String, Fail> {
    let key = key_of(alloc, name)?;
    match name {
        "standard" => public_text(alloc, &key),
        "ten" => whole_text(alloc, &key, 700),
        _ => whole_text(alloc, &key, 19),
    }
}

/// The key that grows after a number of calls that each add a leaf.
pub(crate) fn growing_text(alloc: Global, count: &str) -> Result<String, Fail> {
    let mut growing = GrowingKey::start(alloc, &ID, &SEED, Height::H5)?;
    for _ in 0..count.parse::<u32>().unwrap_or(0) {
        growing.add_leaf();
    }
    let leaves = growing.leaves();
    let key = whole_text(alloc, &growing.finish(), 19)?;
    Ok(format!(in alloc; "{leaves} {key}")?)
}

fn public_text(alloc: Global, key: &LmsKey) -> Result<String, Fail> {
    let leaves = key.leaves();
    let public = encode(alloc, key.public().as_slice())?;
    Ok(format!(in alloc; "{leaves} {public}")?)
}

fn whole_text(alloc: Global, key: &LmsKey, leaf: u32) -> Result<String, Fail> {
    let public = public_text(alloc, key)?;
    let signature = signed_text(alloc, key, leaf)?;
    Ok(format!(in alloc; "{public} {signature}")?)
}

fn signed_text(alloc: Global, key: &LmsKey, leaf: u32) -> Result<String, Fail> {
    let bytes = signed(key, leaf)?;
    verified_text(alloc, &key.public(), bytes.as_slice())
}

/// The digest of a signature, and whether it fits.
fn verified_text(alloc: Global, public: &[u8; 56], bytes: &[u8]) -> Result<String, Fail> {
    let word = word_of(lms_verify(public, b"themis", bytes));
    let digest = digest_of(alloc, bytes)?;
    Ok(format!(in alloc; "{digest} {word}")?)
}

/// The signature of a leaf.
fn signed(key: &LmsKey, leaf: u32) -> Result<Vec<u8>, Fail> {
    if leaf >= key.leaves() {
        return Err(Fail::from("the leaf is there"));
    }
    Ok(key.sign(leaf, b"themis")?.into_vec())
}

/// Whether a seal fits its replica, and does not fit if it is truncated or changed, or for a replica with another key
/// or without a key.
fn fits_alone(checker: &LmsChecker, bytes: &mut Vec<u8>) -> bool {
    let whole = fits(checker, 2, bytes.as_slice());
    let cut = fits(checker, 2, part(bytes.as_slice(), 0, 2347));
    let foreign = fits(checker, 1, bytes.as_slice());
    let without_key = fits(checker, 16, bytes.as_slice());
    turn(bytes, 1000);
    let changed = fits(checker, 2, bytes.as_slice());
    whole && !cut && !foreign && !without_key && !changed
}

fn fits(checker: &LmsChecker, replica: u32, bytes: &[u8]) -> bool {
    checker.fits(replica, b"statement", bytes)
}

pub(crate) fn sealer_text(alloc: Global) -> Result<String, Fail> {
    let mut sealer = LmsSealer::start(alloc, 1, 2, Height::H5)?;
    let other = LmsSealer::start(alloc, 1, 0, Height::H5)?.public();
    seals_text(alloc, &mut sealer, other)
}

fn seals_text(alloc: Global, sealer: &mut LmsSealer, other: [u8; 56]) -> Result<String, Fail> {
    let checker = LmsChecker::of(alloc, &[other, other, sealer.public()])?;
    let mut all = Sha256::new();
    let good = count_good(sealer, &checker, &mut all);
    counts_text(alloc, good, sealer.made(), &all.finalize())
}

/// The number of good seals that are made until the sealer is exhausted. `all` hashes every seal.
fn count_good(sealer: &mut LmsSealer, checker: &LmsChecker, all: &mut Sha256) -> u32 {
    let mut good = 0u32;
    for number in 0..33u32 {
        let made = sealer.made();
        let mut bytes = match sealer.seal(b"statement") {
            Ok(seal) => seal.into_vec(),
            Err(SealFault::Spent) => return good,
            Err(SealFault::NoMemory) => return 0,
        };
        all.update(bytes.as_slice());
        if made == number && bytes.len() == 2348 && fits_alone(checker, &mut bytes) {
            good = good.saturating_add(1);
        }
    }
    good
}

pub(crate) fn changes_text(alloc: Global) -> Result<String, Fail> {
    let key = key_of(alloc, "five")?;
    let mut bytes = signed(&key, 19)?;
    fitting_text(alloc, &key.public(), &mut bytes)
}

fn fitting_text(alloc: Global, public: &[u8; 56], bytes: &mut Vec<u8>) -> Result<String, Fail> {
    let fitting = fitting_changes(public, bytes);
    let word = word_of(lms_verify(public, b"themis", bytes.as_slice()));
    Ok(format!(in alloc; "{fitting} {word}")?)
}

fn fitting_changes(public: &[u8; 56], bytes: &mut Vec<u8>) -> u32 {
    let mut fitting = 0u32;
    for place in 0..213 {
        turn(bytes, 11 * place);
        if lms_verify(public, b"themis", bytes.as_slice()) {
            fitting = fitting.saturating_add(1);
        }
        turn(bytes, 11 * place);
    }
    fitting
}
