//! Sealers and checkers of two-level HSS.
use crate::bytes::{digest_of, part, turn};
use crate::cases::{check_cases, counts_text, word_of};
use hss_seal::{HssChecker, HssSealer, hss_verify};
use seal_kit::{Checker, Height, SealFault, Sealer};
use sha2::{Digest, Sha256};
use std::alloc::Global;
use std::test::Fail;

/// `two levels` has the number of good seals, the number that the sealer counts, and the digest of all. `two levels
/// changed` has the number of changes, of each byte of the inner key and of every 23rd byte, with which a seal fits,
/// and whether it fits unchanged. `high` is about lower trees of height ten: the digests of the first two seals, and
/// whether the second fits its statement and another. `after seals` has the same of the last seal of lower trees
/// 0 and 1 of height five, and of the seal after it, whose tree grew ahead.
const TWO_LEVELS: &str = "\
two levels||1024 1024 953f0244cf08d53a5b1bad4de7f9f95b70d83cce9e2a44e1c586262280413256
two levels changed||0 yes
high||412e98339f0f68f4c5400daf46366f6455a740e86c2eb6cd18862e7312238635 da0f315efd78bfe6c5875b80ec5849341bf204f5e3f73d0350390782c34964f1 yes no
after seals|31|1171d8cf55056cb2525b447fb7c11125d02458b482f7caf5e4267ec05004c69e 8cce5f379433b6e81d78bf48e3caba98bd55f063d30a679c4be1f290944446df yes no
after seals|63|85d89b2c88fd28c6255b1d6d9ac1662cdb4522e1ae8ef23bee9a2ba07891c7ac 2e503e7bb73267c8802507a3ec8b4cbc4320a088eb700e13258e5994003e4720 yes no
";

#[test]
fn seals_of_two_levels_are_those_of_another_program(rt: HostRuntime) -> Result<(), Fail> {
    check_cases(rt.alloc(), TWO_LEVELS)
}

pub(crate) fn sealer_text(alloc: Global) -> Result<String, Fail> {
    let mut sealer = HssSealer::start(alloc, 1, 2, Height::H5)?;
    seals_text(alloc, &mut sealer)
}

fn seals_text(alloc: Global, sealer: &mut HssSealer) -> Result<String, Fail> {
    let checker = HssChecker::of(alloc, &[sealer.public()])?;
    let mut all = Sha256::new();
    let good = count_good(sealer, &checker, &mut all);
    counts_text(alloc, good, sealer.made(), &all.finalize())
}

/// The number of good seals that are made until the sealer is exhausted. `all` hashes every seal.
fn count_good(sealer: &mut HssSealer, checker: &HssChecker, all: &mut Sha256) -> u32 {
    let mut good = 0u32;
    for number in 0..1025u32 {
        let seal = match sealer.seal(b"statement") {
            Ok(seal) => seal,
            Err(SealFault::Spent) => return good,
            Err(SealFault::NoMemory) => return 0,
        };
        all.update(seal.as_slice());
        if is_good(checker, seal.as_slice(), number) {
            good = good.saturating_add(1);
        }
    }
    good
}

/// Whether a seal fits, and has the right length and the leaves of its number. Number 32 is the first of lower tree 1.
fn is_good(checker: &HssChecker, seal: &[u8], number: u32) -> bool {
    seal.len() == 4756
        && part(seal, 4, 8) == (number / 32).to_be_bytes().as_slice()
        && part(seal, 2408, 2412) == (number % 32).to_be_bytes().as_slice()
        && checker.fits(0, b"statement", seal)
}

fn sealed(sealer: &mut HssSealer) -> Result<Vec<u8>, Fail> {
    Ok(sealer.seal(b"statement")?.into_vec())
}

pub(crate) fn changes_text(alloc: Global) -> Result<String, Fail> {
    let mut sealer = HssSealer::start(alloc, 1, 2, Height::H5)?;
    let mut bytes = sealed(&mut sealer)?;
    fitting_text(alloc, &sealer.public(), &mut bytes)
}

fn fitting_text(alloc: Global, public: &[u8; 60], bytes: &mut Vec<u8>) -> Result<String, Fail> {
    let fitting = fitting_changes(public, bytes);
    let word = word_of(hss_verify(public, b"statement", bytes.as_slice()));
    Ok(format!(in alloc; "{fitting} {word}")?)
}

fn fitting_changes(public: &[u8; 60], bytes: &mut Vec<u8>) -> u32 {
    let mut fitting = 0u32;
    for place in 0..262 {
        let at = place_changed(place);
        turn(bytes, at);
        if hss_verify(public, b"statement", bytes.as_slice()) {
            fitting = fitting.saturating_add(1);
        }
        turn(bytes, at);
    }
    fitting
}

/// The 56 bytes of the inner key, followed by every 23rd byte of the seal.
fn place_changed(place: usize) -> usize {
    if place < 56 {
        2352 + place
    } else {
        (place - 56).saturating_mul(23)
    }
}

/// The digests of the first two seals, and whether the second fits its statement and another.
pub(crate) fn high_text(alloc: Global) -> Result<String, Fail> {
    let mut sealer = HssSealer::start(alloc, 1, 2, Height::H10)?;
    first_two_text(alloc, &mut sealer)
}

/// The same of the two seals after a number of others.
pub(crate) fn later_text(alloc: Global, count: &str) -> Result<String, Fail> {
    let mut sealer = HssSealer::start(alloc, 1, 2, Height::H5)?;
    for _ in 0..count.parse::<u32>().unwrap_or(0) {
        sealer.seal(b"other")?;
    }
    first_two_text(alloc, &mut sealer)
}

fn first_two_text(alloc: Global, sealer: &mut HssSealer) -> Result<String, Fail> {
    let first = sealed(sealer)?;
    let second = sealed(sealer)?;
    both_text(alloc, &sealer.public(), first.as_slice(), second.as_slice())
}

fn both_text(
    alloc: Global,
    public: &[u8; 60],
    first: &[u8],
    second: &[u8],
) -> Result<String, Fail> {
    let own = word_of(hss_verify(public, b"statement", second));
    let other = word_of(hss_verify(public, b"Statement", second));
    let first = digest_of(alloc, first)?;
    let second = digest_of(alloc, second)?;
    Ok(format!(in alloc; "{first} {second} {own} {other}")?)
}
