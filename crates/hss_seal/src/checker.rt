ghost use Rattle.std.specs.Prelude.{◌≡◌, IfOk};
ghost use Rattle.hss_seal.specs.Hss.{hss_fits};

use crate::heads::KnownHeads;
use crate::hss_verify;
use crate::verify::message_fits;
use seal_kit::Checker;
use seq_base::NoMemory;
use std::alloc::Global;
use std::marker::Model;

/// Checks seals of two-level HSS. A head that it learned is not checked again ([`HssChecker::learn`]).
pub struct HssChecker {
    publics: Vec<[u8; 60]>,
    known: KnownHeads,
}

impl Drop for HssChecker {
    fn drop(self) {
        let HssChecker {
            publics: _,
            known: _,
        } = self;
    }
}

impl Model for HssChecker {
    ghost use Rattle.std.specs.Prelude.{List, ℕ};

    ghost Value = { List (List ℕ) };

    ghost view = { λ c. c.publics.items };
}

impl HssChecker {
    /// Key number i is that of replica i.
    pub fn of(alloc: Global, publics: &[[u8; 60]]) -> Result<HssChecker, NoMemory>
        ensures { IfOk result (λ c. c ≡ publics.now) }
    {
        let known = KnownHeads::new(alloc, publics.len())?;
        let publics = Vec::from_slice(alloc, publics)?;
        Ok(HssChecker { publics, known })
    }

    /// Remembers the head of a replica's seal if it fits: the bytes before the lower tree's signature. Seals with a known
    /// head take half the work to check. It checks only a head that is not known yet, and keeps the last one of each
    /// replica and each leaf of its top tree: up to 32 heads of 2,408 bytes a replica. The result says whether the head is
    /// known now: a caller that learns from a message can stop at the first head that does not fit. Out of memory nothing
    /// is learned.
    pub fn learn(&mut self, replica: u32, seal: &[u8]) -> bool
        ensures { self.new ≡ self.old }
    {
        match self.publics.get(replica as usize) {
            Some(public) => match self.known.learn(replica, public, seal) {
                Ok(known) => known,
                Err(_) => false,
            },
            None => false,
        }
    }
}

impl Checker for HssChecker {
    ghost use Rattle.hss_seal.specs.Check.{hss_publics_fit};

    ghost meaning = { λ c. hss_publics_fit c };

    fn fits(&self, replica: u32, bytes: &[u8], seal: &[u8]) -> bool {
        match self.publics.get(replica as usize) {
            None => false,
            Some(public) => seal_fits(&self.known, replica, public, bytes, seal),
        }
    }
}

/// Whether a seal of a replica with this key fits. Its head is checked unless it is known.
#[tactic(auto, using(crate::proofs::HeadsFit::message_decides))]
fn seal_fits(known: &KnownHeads, replica: u32, public: &[u8; 60], bytes: &[u8], seal: &[u8]) -> bool
    ensures { result ≡ hss_fits public.now bytes.now seal.now }
{
    if known.has(replica, public, seal) {
        message_fits(bytes, seal)
    } else {
        hss_verify(public, bytes, seal)
    }
}
