//! Sealers whose keys are derived from 48 bytes.
use crate::bytes::digest_of;
use crate::cases::{check_cases, word_of};
use crate::makers::height_of;
use crate::one_time::{ID, SEED};
use hex::encode;
use hss_seal::{AnyChecker, AnySealer, LmsMaker};
use lms_seal::{drawn_id, drawn_seed};
use seal_kit::{Checker, Height, SealFault, SealGrower, Sealer};
use std::alloc::Global;
use std::test::Fail;

/// The input is the heights of the trees. `grown` is about the sealer of replica 1 whose key is derived from bytes.
/// The answer has its public key, the digest of its second seal, and whether this seal fits replica 1, another
/// replica, and another statement, once the checker has learned from it. `drawn` compares the maker's sealer of that
/// replica with one derived from the bytes drawn for it: whether the public keys and the first seals are the same. The
/// maker derives lower trees from other bytes, so the seals of two levels differ.
const FROM_BYTES: &str = "\
grown|5|000000010000000500000003000102030405060708090a0b0c0d0e0f36d0c0e91e6b0538bf6118ab0b7f4b01aa9536eec04844fa9d5faa0f849c7c95 3bc4423fa72a5b766e5abcc2824e72b27507972864bad028b7377752f2d6ee1e yes no no
grown|10|000000010000000600000003000102030405060708090a0b0c0d0e0f6a85d5da998b797be867cd7032184a3643f39ae2696f46da35de5d852afe3afd 15421fd7856d7478cb46b2bf0bcf1e70c68e8f2df10134af9e0dfa300f70509b yes no no
grown|5 5|000000020000000500000003000102030405060708090a0b0c0d0e0f36d0c0e91e6b0538bf6118ab0b7f4b01aa9536eec04844fa9d5faa0f849c7c95 6cf5e5f912cc4a060c353b23f89129ce11337315beb3589b5a7c0c5f3beaeafb yes no no
grown|5 10|000000020000000500000003000102030405060708090a0b0c0d0e0f36d0c0e91e6b0538bf6118ab0b7f4b01aa9536eec04844fa9d5faa0f849c7c95 205830694ede67c74e216198685a2d4aa5c6cdcfc3eb29d0dd0a7eebfa37763f yes no no
drawn|5|yes yes
drawn|5 5|yes no
";

#[test]
fn keys_from_bytes_are_those_of_another_program(rt: HostRuntime) -> Result<(), Fail> {
    check_cases(rt.alloc(), FROM_BYTES)
}

pub(crate) fn grown_text(alloc: Global, heights: &str) -> Result<String, Fail> {
    let height = height_of(heights);
    let mut sealer = AnySealer::from_bytes(alloc, &ID, &SEED, height, 1)?;
    sealer_text(alloc, &mut sealer, height)
}

fn sealer_text(alloc: Global, sealer: &mut AnySealer, height: Height) -> Result<String, Fail> {
    let mut checker = AnyChecker::from_publics(alloc, height, &[[0; 60], sealer.public()])?;
    let seal = second_seal(sealer)?;
    checker.learn(1, seal.as_slice());
    let public = encode(alloc, sealer.public().as_slice())?;
    let rest = seal_text(alloc, &checker, seal.as_slice())?;
    Ok(format!(in alloc; "{public} {rest}")?)
}

fn second_seal(sealer: &mut AnySealer) -> Result<Vec<u8>, SealFault> {
    sealer.seal(b"first")?;
    Ok(sealer.seal(b"statement")?.into_vec())
}

fn seal_text(alloc: Global, checker: &AnyChecker, seal: &[u8]) -> Result<String, Fail> {
    let own = word_of(checker.fits(1, b"statement", seal));
    let foreign = word_of(checker.fits(0, b"statement", seal));
    let changed = word_of(checker.fits(1, b"Statement", seal));
    let digest = digest_of(alloc, seal)?;
    Ok(format!(in alloc; "{digest} {own} {foreign} {changed}")?)
}

pub(crate) fn drawn_text(alloc: Global, heights: &str) -> Result<String, Fail> {
    let height = height_of(heights);
    let mut made = LmsMaker::new(alloc).make_one(7, height, 2, 1)?;
    let mut grown = AnySealer::from_bytes(alloc, &drawn_id(7, 1), &drawn_seed(7, 1), height, 1)?;
    let public = word_of(made.public().as_slice() == grown.public().as_slice());
    let seal = word_of(give_same_seal(&mut made, &mut grown)?);
    Ok(format!(in alloc; "{public} {seal}")?)
}

fn give_same_seal(made: &mut AnySealer, grown: &mut AnySealer) -> Result<bool, SealFault> {
    let own = made.seal(b"statement")?;
    let other = grown.seal(b"statement")?;
    Ok(own.as_slice() == other.as_slice())
}
