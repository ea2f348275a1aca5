//! Makers of sealers, and the number of seals for each height.
use crate::bytes::digest_of;
use crate::cases::{check_cases, word_of};
use hex::encode;
use hss_seal::LmsMaker;
use seal_kit::{Checker, Height, Kit, LooseMaker, SealGrower, SealMaker, Sealer, TagMaker};
use seq_base::Seal;
use std::alloc::Global;
use std::test::Fail;

/// `capacity` is the number of seals for heights: one for each leaf. `made` has the seal of a maker: its digest if it
/// is a signature of one or two levels, or the seal itself if it is a digest or empty. `made alone` is about a sealer
/// that is made without its kit: whether its first seal is that of the kit's sealer, and whether it fits its replica,
/// and another.
const MAKERS: &str = "\
capacity|5|32
capacity|10|1024
capacity|5 5|1024
capacity|5 10|32768
made|one level|b7fc298e0671557b541acac5a92d25dc57cb22db3e34e78f4f522c85541c8a5e
made|two levels|c7c0a69fe55655b889ae3b0a29f478bc81d1ff9b316b61f4c5fb4960cb6e55cc
made|digest|0a26dfc8c3d93fbeddb41fc35244f77f4d91edf41f3c56128429ffecedc86f7d
made|nothing|
made alone|one level|yes yes no
made alone|two levels|yes yes no
made alone|digest|yes yes no
made alone|nothing|yes yes yes
";

#[test]
fn each_maker_makes_its_seals(rt: HostRuntime) -> Result<(), Fail> {
    check_cases(rt.alloc(), MAKERS)
}

/// The number of seals for trees of these heights.
pub(crate) fn capacity_text(alloc: Global, heights: &str) -> Result<String, Fail> {
    Ok(height_of(heights).capacity().to_string(alloc)?)
}

/// The height with this name.
pub(crate) fn height_of(heights: &str) -> Height {
    match heights {
        "5" => Height::H5,
        "10" => Height::H10,
        "5 5" => Height::H5H5,
        _ => Height::H5H10,
    }
}

/// Whether a sealer is the second of two and has made one seal.
fn is_second<S: Sealer>(sealer: &S, height: Height) -> bool {
    sealer.replica() == 1 && sealer.made() == 1 && sealer.capacity() == height.capacity()
}

/// Whether a seal fits the second replica, and does not fit a replica that does not exist.
fn is_of_second<C: Checker>(checker: &C, seal: &[u8]) -> bool {
    checker.fits(1, b"statement", seal) && !checker.fits(2, b"statement", seal)
}

/// The first seal of the second of two sealers; None if a property of the sealer or the seal is wrong.
fn second_seal<M: SealMaker>(maker: &M, height: Height) -> Option<Seal> {
    let Kit {
        mut sealers,
        checker,
    } = maker.make(7, height, 2).ok()?;
    seal_by(sealers.get_mut(1)?, &checker, height)
}

fn seal_by<S: Sealer, C: Checker>(sealer: &mut S, checker: &C, height: Height) -> Option<Seal> {
    let seal = sealer.seal(b"statement").ok()?;
    if is_second(sealer, height) && is_of_second(checker, seal.as_slice()) {
        Some(seal)
    } else {
        None
    }
}

fn seal_of(alloc: Global, maker: &str) -> Option<Seal> {
    match maker {
        "one level" => second_seal(&LmsMaker::new(alloc), Height::H5),
        "two levels" => second_seal(&LmsMaker::new(alloc), Height::H5H5),
        "digest" => second_seal(&TagMaker::new(alloc), Height::H10),
        _ => second_seal(&LooseMaker::new(alloc), Height::H5H10),
    }
}

/// The seal of a maker, or its digest if the seal is long.
pub(crate) fn seal_text(alloc: Global, maker: &str) -> Result<String, Fail> {
    match seal_of(alloc, maker) {
        Some(seal) if seal.as_slice().len() > 32 => Ok(digest_of(alloc, seal.as_slice())?),
        Some(seal) => Ok(encode(alloc, seal.as_slice())?),
        None => Ok(String::from_str(alloc, "another kit")?),
    }
}

/// For the second of two sealers, made without its kit: whether its seal is that of the kit's sealer, and whether the
/// seal fits the second replica, and the first.
fn second_alone<M: SealGrower>(maker: &M, height: Height) -> Option<(bool, bool, bool)> {
    let Kit {
        mut sealers,
        checker,
    } = maker.make(7, height, 2).ok()?;
    alone_alongside(maker, sealers.get_mut(1)?, &checker, height)
}

fn alone_alongside<M: SealGrower, S: Sealer, C: Checker>(
    maker: &M,
    own: &mut S,
    checker: &C,
    height: Height,
) -> Option<(bool, bool, bool)> {
    let own = own.seal(b"statement").ok()?;
    let mut sealer = maker.make_one(7, height, 2, 1).ok()?;
    let seal = sealer.seal(b"statement").ok()?;
    let is_own = is_second(&sealer, height) && seal.as_slice() == own.as_slice();
    let fits_second = checker.fits(1, b"statement", seal.as_slice());
    let fits_first = checker.fits(0, b"statement", seal.as_slice());
    Some((is_own, fits_second, fits_first))
}

pub(crate) fn alone_text(alloc: Global, maker: &str) -> Result<String, Fail> {
    let alone = match maker {
        "one level" => second_alone(&LmsMaker::new(alloc), Height::H5),
        "two levels" => second_alone(&LmsMaker::new(alloc), Height::H5H5),
        "digest" => second_alone(&TagMaker::new(alloc), Height::H10),
        _ => second_alone(&LooseMaker::new(alloc), Height::H5H10),
    };
    let (is_own, fits_second, fits_first) = alone.unwrap_or((false, false, false));
    let (own, second, first) = (word_of(is_own), word_of(fits_second), word_of(fits_first));
    Ok(format!(in alloc; "{own} {second} {first}")?)
}
