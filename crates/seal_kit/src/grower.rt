ghost use Rattle.std.specs.Prelude.{◌≡◌, ◌<◌, ◌≤◌, ℕ, List, true, false, IfOk, length, map, All};
ghost use Rattle.std.specs.List.{range_with_len};
ghost use Rattle.seal_kit.specs.Seals.{capacity_of, longest_seal};

use crate::{Height, Kit, LooseMaker, SealMaker, TagMaker};
use seq_base::NoMemory;
use std::thread::Threads;

/// Makes a kit as [`SealMaker`] does, or with all its sealers concurrently, or the sealer of a single replica.
pub trait SealGrower: SealMaker {
    ghost use Rattle.std.specs.Prelude.{◌≡◌, ◌<◌, ◌≤◌, ℕ, List, true, false, IfOk, length, map, All};
    ghost use Rattle.std.specs.List.{range_with_len};
    ghost use denote.Param.Send.{IsSync};
    ghost use Rattle.seal_kit.specs.Seals.{capacity_of, longest_seal};

    /// The result of `make`. A maker may make each replica's sealer in its own thread.
    fn make_in_parallel<R: Threads + Sync>(
        &self,
        _: &R,
        seed: u64,
        height: Height,
        n: u32,
    ) -> Result<Kit<Self::S, Self::C>, NoMemory>
        requires shared { IsSync R.row }
        requires few { (1 ≤ n) × (n ≤ 16) }
        // One fresh sealer for each replica, in their order, with the room and the seals of its key.
        ensures count { IfOk result (λ kit. length kit.sealers.items ≡ n) }
        ensures replicas { IfOk result (λ kit. map Self.S.replica kit.sealers.items ≡ range_with_len 0 n) }
        ensures below { IfOk result (λ kit. All (λ s. Self.S.replica s < n) kit.sealers.items) }
        ensures fresh { IfOk result (λ kit. All (λ s. Self.S.made s ≡ 0) kit.sealers.items) }
        ensures room { IfOk result (λ kit. All (λ s. Self.S.capacity s ≡ capacity_of height) kit.sealers.items) }
        ensures gives { IfOk result (λ kit.
            All (λ s. Self.S.gives s ≡ Self.gives self.now seed height n (Self.S.replica s)) kit.sealers.items) }
        // The checker accepts the seals that fit.
        ensures checker { IfOk result (λ kit. Self.C.meaning kit.checker ≡ Self.fits self.now seed height n) }
        // Which these are: all that the sealers give, none of which is long, and none of a replica above them.
        ensures agree { (replica number : ℕ) (bytes : List ℕ) → replica < n
            → Self.fits self.now seed height n replica bytes (Self.gives self.now seed height n replica number bytes) ≡ true }
        ensures short { (replica number : ℕ) (bytes : List ℕ) → replica < n
            → length (Self.gives self.now seed height n replica number bytes) ≤ longest_seal }
        ensures none { (replica : ℕ) (bytes seal : List ℕ) → n ≤ replica → Self.fits self.now seed height n replica bytes seal ≡ false }
    {
        self.make(seed, height, n)
    }

    /// The sealer of one of n replicas, for a replica that is restarted. It makes the same seals as the first sealer
    /// of that replica, starting at number 0. So under a number that the first sealer has used, it must be given the
    /// same bytes. Where a maker generates keys, the call takes the time of that replica's key. The default makes the
    /// whole kit and takes the sealer out of it.
    fn make_one(&self, seed: u64, height: Height, n: u32, replica: u32) -> Result<Self::S, NoMemory>
        requires few { (1 ≤ n) × (n ≤ 16) }
        requires below { replica < n }
        ensures replica { IfOk result (λ s. Self.S.replica s ≡ replica) }
        ensures fresh { IfOk result (λ s. Self.S.made s ≡ 0) }
        ensures room { IfOk result (λ s. Self.S.capacity s ≡ capacity_of height) }
        ensures gives { IfOk result (λ s. Self.S.gives s ≡ Self.gives self.now seed height n replica) }
    {
        let mut kit = self.make(seed, height, n)?;
        Ok(kit.sealers.swap_remove(replica as usize))
    }
}

impl SealGrower for TagMaker {}

impl SealGrower for LooseMaker {}
