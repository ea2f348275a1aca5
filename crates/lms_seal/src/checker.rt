ghost use Rattle.std.specs.Prelude.{◌≡◌, IfOk};

use crate::lms_verify;
use seal_kit::Checker;
use seq_base::NoMemory;
use std::alloc::Global;
use std::marker::Model;

/// Checks the seals of sealers with one tree each.
pub struct LmsChecker {
    publics: Vec<[u8; 56]>,
}

impl Drop for LmsChecker {
    fn drop(self) {
        let LmsChecker { publics: _ } = self;
    }
}

impl Model for LmsChecker {
    ghost use Rattle.std.specs.Prelude.{List, ℕ};

    ghost Value = { List (List ℕ) };

    ghost view = { λ c. c.publics.items };
}

impl LmsChecker {
    /// Key number i is that of replica i.
    pub fn of(alloc: Global, publics: &[[u8; 56]]) -> Result<LmsChecker, NoMemory>
        ensures { IfOk result (λ c. c ≡ publics.now) }
    {
        let publics = Vec::from_slice(alloc, publics)?;
        Ok(LmsChecker { publics })
    }
}

impl Checker for LmsChecker {
    ghost use Rattle.lms_seal.specs.Check.{publics_fit};

    ghost meaning = { λ c. publics_fit c };

    fn fits(&self, replica: u32, bytes: &[u8], seal: &[u8]) -> bool {
        match self.publics.get(replica as usize) {
            None => false,
            Some(public) => lms_verify(public, bytes, seal),
        }
    }
}
