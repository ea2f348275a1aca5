ghost use Rattle.std.specs.Prelude.{◌≡◌, ℕ, List, IfOk};

use crate::{Height, LooseChecker, LooseMaker, SealGrower, SealMaker, TagChecker, TagMaker};
use seq_base::NoMemory;

/// Makes the checker of given public keys, too: for the record of a run whose keys grew from secrets that are not
/// known here.
pub trait CheckerMaker: SealGrower {
    ghost use Rattle.std.specs.Prelude.{◌≡◌, ℕ, List, Bool, IfOk};
    ghost use Rattle.seal_kit.specs.declared.height.Height.{Height};

    /// The checker's answer, by the height and the public keys.
    ghost keys_fit: { Self → Height → List (List ℕ) → ℕ → List ℕ → List ℕ → Bool };

    /// Checks by the public keys of all replicas, which have 60 bytes each: key number i is that of replica i.
    fn checker_of(&self, height: Height, keys: &[[u8; 60]]) -> Result<Self::C, NoMemory>
        ensures { IfOk result (λ checker. Self.C.meaning checker ≡ keys_fit self.now height keys.now) };
}

/// A tag has no key: the checker accepts the tags of 16 replicas, whatever the keys are.
impl CheckerMaker for TagMaker {
    ghost use Rattle.seal_kit.specs.Tags.{tag_fits};

    ghost keys_fit = { λ _ height keys replica bytes seal. tag_fits 16 replica bytes seal };

    fn checker_of(&self, height: Height, _: &[[u8; 60]]) -> Result<TagChecker, NoMemory> {
        Ok(self.make(0, height, 16)?.checker)
    }
}

/// The checker accepts any seal of 16 replicas, whatever the keys are.
impl CheckerMaker for LooseMaker {
    ghost use Rattle.std.specs.Prelude.{nat_lt};

    ghost keys_fit = { λ _ height keys replica bytes seal. nat_lt replica 16 };

    fn checker_of(&self, height: Height, _: &[[u8; 60]]) -> Result<LooseChecker, NoMemory> {
        Ok(self.make(0, height, 16)?.checker)
    }
}
