ghost use Rattle.std.specs.Prelude.{◌≡◌, ◌<◌, ℕ, IfOk, Ok, length, map, slice_index_or};
ghost use Rattle.hss_seal.specs.Any.{any_capacity, any_gives, any_made, any_meaning, any_public, any_publics_fit, any_replica, drawn_sealer, made_gives};
ghost use Rattle.hss_seal.specs.Kits.{IsKit};
ghost use Rattle.seal_kit.specs.Seals.{capacity_of};

use crate::{AnyChecker, AnySealer, HssSealer};
use lms_seal::LmsSealer;
use seal_kit::{CheckerMaker, Height, Kit, SealGrower, SealMaker};
use seq_base::NoMemory;
use std::alloc::Global;
use std::thread;
use std::thread::Threads;

/// Makes sealers by LMS: with one tree at heights of one tree, with two levels at the others.
#[derive(Drop)]
pub struct LmsMaker {
    alloc: Global,
}

impl LmsMaker {
    /// Allocates nothing: the allocator is stored for what is made later.
    pub fn new(alloc: Global) -> LmsMaker {
        LmsMaker { alloc }
    }
}

impl SealMaker for LmsMaker {
    type S = AnySealer;

    type C = AnyChecker;

    ghost use Rattle.hss_seal.specs.Any.{made_fits, made_gives};

    ghost fits = { λ _ seed height n. made_fits seed height n };

    ghost gives = { λ _ seed height n replica. made_gives seed height replica };

    fn make(
        &self,
        seed: u64,
        height: Height,
        n: u32,
    ) -> Result<Kit<AnySealer, AnyChecker>, NoMemory> {
        new_kit(self.alloc, seed, height, n)
    }
}

/// The keys of all replicas are grown concurrently; or that of one replica alone.
impl SealGrower for LmsMaker {
    fn make_in_parallel<R: Threads + Sync>(
        &self,
        rt: &R,
        seed: u64,
        height: Height,
        n: u32,
    ) -> Result<Kit<AnySealer, AnyChecker>, NoMemory> {
        new_kit_in_parallel(rt, self.alloc, seed, height, n)
    }

    fn make_one(
        &self,
        seed: u64,
        height: Height,
        _: u32,
        replica: u32,
    ) -> Result<AnySealer, NoMemory> {
        new_sealer(self.alloc, seed, height, replica)
    }
}

/// The public keys are those of [`AnySealer::public`].
impl CheckerMaker for LmsMaker {
    ghost use Rattle.hss_seal.specs.Any.{any_publics_fit};

    ghost keys_fit = { λ _ height keys. any_publics_fit height keys };

    fn checker_of(&self, height: Height, keys: &[[u8; 60]]) -> Result<AnyChecker, NoMemory> {
        AnyChecker::from_publics(self.alloc, height, keys)
    }
}

/// The kit of n replicas. Their keys are grown one after another.
fn new_kit(
    alloc: Global,
    seed: u64,
    height: Height,
    n: u32,
) -> Result<Kit<AnySealer, AnyChecker>, NoMemory>
    ensures { IfOk result (λ kit. IsKit seed height n kit.sealers.items kit.checker) }
{
    let mut sealers = Vec::new(alloc);
    'replicas: for replica in 0..n {
        sealers.push(new_sealer(alloc, seed, height, replica)?)?;
    }
    kit_of(alloc, height, sealers)
}

/// The kit of n replicas. Each key is grown in its own thread.
fn new_kit_in_parallel<R: Threads + Sync>(
    rt: &R,
    alloc: Global,
    seed: u64,
    height: Height,
    n: u32,
) -> Result<Kit<AnySealer, AnyChecker>, NoMemory>
    ensures { IfOk result (λ kit. IsKit seed height n kit.sealers.items kit.checker) }
{
    let grown = grow_all(rt, alloc, seed, height, n)?;
    kit_of(alloc, height, all_grown(alloc, grown)?)
}

/// The sealer of each replica, made in its own thread.
fn grow_all<R: Threads + Sync>(
    rt: &R,
    alloc: Global,
    seed: u64,
    height: Height,
    n: u32,
) -> Result<Vec<Result<AnySealer, NoMemory>>, NoMemory>
    ensures count { IfOk result (λ grown. length grown.items ≡ n) }
    ensures each { IfOk result (λ grown. (i : ℕ) (d : _) → i < n → IfOk (slice_index_or grown.items i d) (λ sealer. sealer ≡ drawn_sealer seed height i)) }
{
    let grown = thread::map_indices(
        rt,
        alloc,
        n as usize,
        &|replica| { new_sealer(alloc, seed, height, replica as u32) },
    )?;
    Ok(grown)
}

/// The grown sealers, if there was memory for all.
fn all_grown<T: Drop>(alloc: Global, grown: Vec<Result<T, NoMemory>>) -> Result<Vec<T>, NoMemory>
    ensures { IfOk result (λ keys. map Ok keys.items ≡ grown.items) }
{
    let mut keys = Vec::new(alloc);
    for key in grown {
        keys.push(key?)?;
    }
    Ok(keys)
}

/// The sealer of a replica, whose key is drawn from the seed of a run. It has made no seal.
fn new_sealer(alloc: Global, seed: u64, height: Height, replica: u32) -> Result<AnySealer, NoMemory>
    ensures sealer { IfOk result (λ sealer. sealer ≡ drawn_sealer seed height replica) }
    ensures replica { IfOk result (λ sealer. any_replica sealer ≡ replica) }
    ensures fresh { IfOk result (λ sealer. any_made sealer ≡ 0) }
    ensures room { IfOk result (λ sealer. any_capacity sealer ≡ capacity_of height) }
    ensures gives { IfOk result (λ sealer. any_gives sealer ≡ made_gives seed height replica) }
{
    match height {
        Height::H5 | Height::H10 => {
            Ok(AnySealer::One(LmsSealer::start(alloc, seed, replica, height)?))
        },
        Height::H5H5 | Height::H5H10 => {
            Ok(AnySealer::Two(HssSealer::start(alloc, seed, replica, height)?))
        },
    }
}

/// The kit of these sealers: their checker has their public keys.
fn kit_of(
    alloc: Global,
    height: Height,
    sealers: Vec<AnySealer>,
) -> Result<Kit<AnySealer, AnyChecker>, NoMemory>
    ensures sealers { IfOk result (λ kit. kit.sealers.items ≡ sealers.items) }
    ensures checker { IfOk result (λ kit. any_meaning kit.checker ≡ any_publics_fit height (map any_public sealers.items)) }
{
    let publics = publics_of(alloc, sealers.as_slice())?;
    let checker = AnyChecker::from_publics(alloc, height, publics.as_slice())?;
    Ok(Kit { sealers, checker })
}

fn publics_of(alloc: Global, sealers: &[AnySealer]) -> Result<Vec<[u8; 60]>, NoMemory>
    ensures { IfOk result (λ publics. publics.items ≡ map any_public sealers.now) }
{
    let mut publics = Vec::new(alloc);
    for sealer in sealers {
        publics.push(sealer.public())?;
    }
    Ok(publics)
}
