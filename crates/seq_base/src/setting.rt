ghost use Rattle.std.specs.Prelude.{◌≡◌, ◌+◌, ◌-◌, ◌*◌, ◌/◌, ◌%◌, ◌<◌, ◌≤◌, ◌↔◌, Ok, Err, IfOk, IsOk};

use std::error::Error;
use std::fmt;
use std::marker::Model;

/// The maximum number of replicas in a setting.
const MAX_REPLICAS: u32 = 16;

/// The maximum denominator of the fairness parameter.
const MAX_DENOMINATOR: u32 = 1000;

/// The first part of a setting that is refused.
#[derive(Clone, Copy, Debug, PartialEq, Eq)]
pub enum SettingFault {
    /// The number of replicas is not 1 to 16.
    Replicas,
    /// The fairness parameter p/q is not above one half and at most one, or q is not 1 to 1000.
    Gamma,
    /// n is not above 4f/(2p/q - 1): too many replicas may be faulty.
    Resilience,
}

impl fmt::Display for SettingFault {
    ghost use Rattle.std.specs.Prelude.{Some};
    ghost use Rattle.seq_base.specs.SettingWords.{setting_words};

    ghost output = { λ fault. Some (setting_words fault) };

    fn fmt<W: fmt::Write>(&self, f: &mut fmt::Formatter<W>) -> fmt::Result {
        f.write_str(match self {
            SettingFault::Replicas => "setting replicas",
            SettingFault::Gamma => "setting gamma",
            SettingFault::Resilience => "setting resilience",
        })
    }
}

impl Error for SettingFault {}

/// The number of replicas, how many of them may be faulty, and the fairness of their order: n, f and γ = p/q. Every
/// value is valid, with `n > 4f/(2γ-1)` (Themis, CCS 2023, stated in whole numbers).
#[derive(Clone, Copy, PartialEq, Eq)]
pub struct Setting {
    n: u32,
    f: u32,
    p: u32,
    q: u32,
}

impl Model for Setting {
    ghost use Rattle.seq_base.specs.Setting.{Parameters, IsValid};

    ghost Value = { Parameters };

    ghost view = { λ s. record { n = s.n; f = s.f; p = s.p; q = s.q } };

    ghost invariant = { λ s. IsValid (record { n = s.n; f = s.f; p = s.p; q = s.q }) };

    ghost inverse = { λ s. record { n = s.n; f = s.f; p = s.p; q = s.q } };
}

impl Setting {
    ghost use Rattle.seq_base.specs.Setting.{Parameters, IsValid, HasReplicas, HasGamma, IsResilient, parameters, threshold_of, solid_of, quorum_of, leader_of};

    /// Takes no memory. Returns the first fault, in the order of [`SettingFault`].
    pub fn new(n: u32, f: u32, p: u32, q: u32) -> Result<Setting, SettingFault>
        ensures ok { IfOk result (λ s. (s ≡ parameters n f p q) × IsValid s) }
        ensures accepted { IsOk result ↔ IsValid (parameters n f p q) }

        ensures replicas { (result ≡ Err SettingFault.Replicas) ↔ (¬ HasReplicas (parameters n f p q)) }
        ensures gamma { (result ≡ Err SettingFault.Gamma)
            ↔ (HasReplicas (parameters n f p q) × (¬ HasGamma (parameters n f p q))) }
        ensures resilience { (result ≡ Err SettingFault.Resilience)
            ↔ (HasReplicas (parameters n f p q) × HasGamma (parameters n f p q) × (¬ IsResilient (parameters n f p q))) }
    {
        if n < 1 || MAX_REPLICAS < n {
            return Err(SettingFault::Replicas);
        }
        if q < 1 || MAX_DENOMINATOR < q || p > q || 2 * p <= q {
            return Err(SettingFault::Gamma);
        }
        if u64::from(n * (2 * p - q)) <= 4 * u64::from(f) * u64::from(q) {
            return Err(SettingFault::Resilience);
        }
        Ok(Setting { n, f, p, q })
    }

    /// The number of replicas.
    pub fn n(&self) -> u32
        ensures value { result ≡ self.now.n }
        ensures valid { IsValid self.now }
    {
        self.n
    }

    /// The maximum number of faulty replicas.
    pub fn f(&self) -> u32
        ensures value { result ≡ self.now.f }
        ensures valid { IsValid self.now }
    {
        self.f
    }

    /// The numerator of γ.
    pub fn p(&self) -> u32
        ensures value { result ≡ self.now.p }
        ensures valid { IsValid self.now }
    {
        self.p
    }

    /// The denominator of γ.
    pub fn q(&self) -> u32
        ensures value { result ≡ self.now.q }
        ensures valid { IsValid self.now }
    {
        self.q
    }

    /// The number of lists that decides a pair, and that makes a transaction shaded: n(1-γ) rounded down, plus f,
    /// plus 1.
    pub fn threshold(&self) -> u32
        ensures value { result ≡ threshold_of self.now }
        ensures at_least_one { 1 ≤ result }
        ensures at_most_solid { result ≤ solid_of self.now }
        // Among as many lists as make a transaction solid, the larger half decides.
        ensures at_most_half { 2 * result ≤ solid_of self.now + 1 }
        ensures valid { IsValid self.now }
    {
        self.n * (self.q - self.p) / self.q + self.f + 1
    }

    /// The number of lists that makes a transaction solid: n-2f.
    pub fn solid_at(&self) -> u32
        ensures value { result ≡ solid_of self.now }
        ensures at_least_threshold { threshold_of self.now ≤ result }
        ensures valid { IsValid self.now }
    {
        self.n - 2 * self.f
    }

    /// The number of local orders in a proposal, and of votes in a certificate: n-f.
    pub fn quorum(&self) -> u32
        ensures value { result ≡ quorum_of self.now }
        ensures at_least_solid { solid_of self.now ≤ result }
        ensures valid { IsValid self.now }
    {
        self.n - self.f
    }

    /// The leader of a view.
    pub fn leader(&self, view: u32) -> u32
        ensures value { result ≡ leader_of self.now view }
        ensures replica { result < self.now.n }
        ensures valid { IsValid self.now }
    {
        view % self.n
    }
}
