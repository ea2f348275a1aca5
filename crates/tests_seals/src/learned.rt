//! A checker that learned the head of a seal of two-level HSS answers as one that did not.
use crate::bytes::{part, turn};
use crate::cases::{check_cases, word_of};
use hss_seal::{HssChecker, HssSealer, hss_verify};
use seal_kit::{Checker, Height, Sealer};
use std::alloc::Global;
use std::test::Fail;

/// The checker learns from the first of two seals with one head. Whether both fit, and the second no other statement;
/// whether the second with a changed byte in one of its parts is refused as before; also where the checker learned from
/// the changed seal; whether it is refused as a seal of another replica, and of one that does not exist, after the
/// checker learned from it as theirs; whether a seal that ends in its head is refused; and whether both seals still fit.
const LEARNED: &str = "\
learned||yes yes yes yes yes yes
";

/// Places in the number of levels, in the leaf and the rest of the top tree's signature, in the lower tree's key, and in
/// the lower tree's signature.
const PLACES: [usize; 12] = [0, 3, 4, 7, 12, 44, 2351, 2352, 2407, 2408, 2411, 4755];

#[test]
fn what_a_checker_learned_changes_no_answer(rt: HostRuntime) -> Result<(), Fail> {
    check_cases(rt.alloc(), LEARNED)
}

pub(crate) fn answers_text(alloc: Global) -> Result<String, Fail> {
    let mut sealer = HssSealer::start(alloc, 1, 0, Height::H5)?;
    let other = HssSealer::start(alloc, 1, 1, Height::H5)?.public();
    let mut checker = HssChecker::of(alloc, &[sealer.public(), other])?;
    let first = sealed(&mut sealer)?;
    let mut second = sealed(&mut sealer)?;
    checker.learn(0, first.as_slice());
    seals_text(
        alloc,
        &mut checker,
        &sealer.public(),
        first.as_slice(),
        &mut second,
    )
}

fn sealed(sealer: &mut HssSealer) -> Result<Vec<u8>, Fail> {
    Ok(sealer.seal(b"statement")?.into_vec())
}

fn seals_text(
    alloc: Global,
    checker: &mut HssChecker,
    public: &[u8; 60],
    first: &[u8],
    second: &mut Vec<u8>,
) -> Result<String, Fail> {
    let good = word_of(both_fit(checker, first, second.as_slice()));
    let changed = word_of(changes_are_refused(checker, public, second));
    let learned = word_of(learned_changes_are_refused(checker, second));
    let foreign = word_of(
        is_refused_of(checker, 1, second.as_slice())
            && is_refused_of(checker, 2, second.as_slice()),
    );
    let short = word_of(is_refused_of(checker, 0, part(first, 0, 2408)));
    let still = word_of(both_fit(checker, first, second.as_slice()));
    Ok(format!(in alloc; "{good} {changed} {learned} {foreign} {short} {still}")?)
}

fn both_fit(checker: &HssChecker, first: &[u8], second: &[u8]) -> bool {
    checker.fits(0, b"statement", first)
        && checker.fits(0, b"statement", second)
        && !checker.fits(0, b"Statement", second)
}

/// Whether a seal with a changed byte fits neither the checker nor the key.
fn changes_are_refused(checker: &HssChecker, public: &[u8; 60], seal: &mut Vec<u8>) -> bool {
    let mut refused = true;
    for at in PLACES {
        turn(seal, at);
        refused = refused
            && !checker.fits(0, b"statement", seal.as_slice())
            && !hss_verify(public, b"statement", seal.as_slice());
        turn(seal, at);
    }
    refused
}

/// The same after the checker learned from the changed seal.
fn learned_changes_are_refused(checker: &mut HssChecker, seal: &mut Vec<u8>) -> bool {
    let mut refused = true;
    for at in PLACES {
        turn(seal, at);
        refused = is_refused_of(checker, 0, seal.as_slice()) && refused;
        turn(seal, at);
    }
    refused
}

/// Whether a seal does not fit a replica, before and after the checker learned from it.
fn is_refused_of(checker: &mut HssChecker, replica: u32, seal: &[u8]) -> bool {
    let before = checker.fits(replica, b"statement", seal);
    checker.learn(replica, seal);
    !before && !checker.fits(replica, b"statement", seal)
}
