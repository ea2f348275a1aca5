ghost use Rattle.std.specs.Prelude.{◌≡◌, ◌+◌, ◌≤◌, ◌↔◌, ℕ, List, Bool, Err, IfOk, OnOk, OnErr, length};
ghost use Rattle.seal_kit.specs.Seals.{longest_seal, OneMade};

use crate::Height;
use seq_base::{NoMemory, Seal};
use std::error::Error;
use std::fmt;

/// Why there is no seal.
#[derive(Clone, Copy, Debug, PartialEq, Eq)]
pub enum SealFault {
    /// The sealer has made as many seals as it can.
    Spent,
    NoMemory,
}

impl fmt::Display for SealFault {
    ghost use Rattle.std.specs.Prelude.{Some};
    ghost use Rattle.seal_kit.specs.FaultWords.{fault_words};

    ghost output = { λ fault. Some (fault_words fault) };

    fn fmt<W: fmt::Write>(&self, f: &mut fmt::Formatter<W>) -> fmt::Result {
        f.write_str(match self {
            SealFault::Spent => "the sealer is spent",
            SealFault::NoMemory => "no memory",
        })
    }
}

impl Error for SealFault {}

impl From<NoMemory> for SealFault {
    ghost use Rattle.std.specs.Prelude.{◌≡◌};
    ghost use Rattle.seal_kit.specs.declared.traits.SealFault.TheVariants as fault;

    ghost from_gives = { λ _ e. e ≡ fault.NoMemory };

    fn from(_: NoMemory) -> Self {
        SealFault::NoMemory
    }
}

/// Makes the seals of one replica, each under its own number, counted from 0.
pub trait Sealer: Send + Drop {
    /// The number of seals made so far, which is the number of the next one.
    ghost made: { Self → ℕ };

    /// The maximum number of seals.
    ghost capacity: { Self → ℕ };

    /// The replica whose seals they are.
    ghost replica: { Self → ℕ };

    /// The seal that it makes for these bytes under a number.
    ghost gives: { Self → ℕ → List ℕ → List ℕ };

    /// The seal of the next number. After NoMemory that number may have been used up, and nothing else changed.
    fn seal(&mut self, bytes: &[u8]) -> Result<Seal, SealFault>
        ensures ok { IfOk result (λ seal. seal ≡ gives self.old (made self.old) bytes.now) }
        ensures short { IfOk result (λ seal. length seal ≤ longest_seal) }
        ensures counted { OnOk result (made self.new ≡ made self.old + 1) }
        ensures spent { (result ≡ Err SealFault.Spent) ↔ (made self.old ≡ capacity self.old) }
        ensures failed { OnErr result (OneMade (made self.old) (made self.new) (capacity self.old)) }
        ensures within { made self.new ≤ capacity self.new }
        ensures same_capacity { capacity self.new ≡ capacity self.old }
        ensures same_replica { replica self.new ≡ replica self.old }
        ensures same_gives { gives self.new ≡ gives self.old };

    fn made(&self) -> u32
        ensures value { result ≡ made self.now }
        ensures within { made self.now ≤ capacity self.now };

    fn capacity(&self) -> u32
        ensures { result ≡ capacity self.now };

    fn replica(&self) -> u32
        ensures { result ≡ replica self.now };
}

/// Verifies whether a seal fits a replica and bytes. It takes no memory. This trait does not promise that seals of a
/// replica without a key are rejected. The maker of a checker promises it (`none` of [`SealMaker`]).
pub trait Checker: Sync + Drop {
    /// Its answer: a function of the replica, the bytes and the seal.
    ghost meaning: { Self → ℕ → List ℕ → List ℕ → Bool };

    fn fits(&self, replica: u32, bytes: &[u8], seal: &[u8]) -> bool
        ensures { result ≡ meaning self.now replica bytes.now seal.now };
}

/// The sealers of all replicas, in order, and the checker of their seals.
#[derive(Drop)]
pub struct Kit<S, C> {
    pub sealers: Vec<S>,
    pub checker: C,
}

/// Makes the sealers of n replicas and their checker. The seals and the checker's answers are functions of the maker,
/// the seed, the height and n. So sealers that are made again make the same seals.
pub trait SealMaker {
    type S: Sealer;

    type C: Checker;

    ghost use Rattle.std.specs.Prelude.{◌≡◌, ◌<◌, ◌≤◌, ℕ, List, Bool, true, false, IfOk, length, map, All};
    ghost use Rattle.std.specs.List.{range_with_len};
    ghost use Rattle.seal_kit.specs.Seals.{capacity_of, longest_seal};
    ghost use Rattle.seal_kit.specs.declared.height.Height.{Height};

    /// The checker's answer, by seed, height and n.
    ghost fits: { Self → ℕ → Height → ℕ → ℕ → List ℕ → List ℕ → Bool };

    /// The seal that a replica's sealer makes for bytes under a number, by seed, height, n and the replica.
    ghost gives: { Self → ℕ → Height → ℕ → ℕ → ℕ → List ℕ → List ℕ };

    fn make(&self, seed: u64, height: Height, n: u32) -> Result<Kit<Self::S, Self::C>, NoMemory>
        requires { (1 ≤ n) × (n ≤ 16) }
        ensures count { IfOk result (λ kit. length kit.sealers.items ≡ n) }
        ensures replicas { IfOk result (λ kit. map Self.S.replica kit.sealers.items ≡ range_with_len 0 n) }
        ensures below { IfOk result (λ kit. All (λ s. Self.S.replica s < n) kit.sealers.items) }
        ensures fresh { IfOk result (λ kit. All (λ s. Self.S.made s ≡ 0) kit.sealers.items) }
        ensures room { IfOk result (λ kit. All (λ s. Self.S.capacity s ≡ capacity_of height) kit.sealers.items) }
        ensures gives { IfOk result (λ kit.
            All (λ s. Self.S.gives s ≡ gives self.now seed height n (Self.S.replica s)) kit.sealers.items) }
        ensures checker { IfOk result (λ kit. Self.C.meaning kit.checker ≡ fits self.now seed height n) }
        // The checker accepts what a sealer makes.
        ensures agree { (replica number : ℕ) (bytes : List ℕ) → replica < n
            → fits self.now seed height n replica bytes (gives self.now seed height n replica number bytes) ≡ true }
        ensures short { (replica number : ℕ) (bytes : List ℕ) → replica < n
            → length (gives self.now seed height n replica number bytes) ≤ longest_seal }
        // The checker has no key for a replica without a sealer.
        ensures none { (replica : ℕ) (bytes seal : List ℕ) → n ≤ replica → fits self.now seed height n replica bytes seal ≡ false };
}
