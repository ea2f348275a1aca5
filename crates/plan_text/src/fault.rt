ghost use Rattle.std.specs.Prelude.{◌≡◌, []};
ghost use Rattle.plan_text.specs.declared.fault.PlanError.TheVariants.{Fault, NoMemory};

use seq_base::{KeyText, NoMemory, SettingFault};
use std::alloc::{AllocError, AllocFailed, Global};
use std::error::Error;
use std::fmt;

/// The kind of a fault in a text.
#[derive(Clone, Copy, Debug, PartialEq, Eq)]
pub enum FaultKind {
    /// The text is no TOML document.
    NotToml,
    /// A key that is not allowed there.
    Unknown,
    /// A required key or line is absent.
    Missing,
    /// A value of another kind.
    WrongKind,
    /// A value outside its set.
    Range,
    /// The setting is refused.
    Setting(SettingFault),
    /// A duplicate.
    Double,
    /// A line that is malformed, lacks its line feed, or is one too many.
    Line,
}

/// The first fault of a text, with its position: a key, or a line as `line 4`, or nothing for a setting.
#[derive(Debug, Drop)]
pub struct PlanFault {
    pub kind: FaultKind,
    pub key: KeyText,
}

/// `double line 4`, and `setting gamma` or `toml` without a position.
impl fmt::Display for PlanFault {
    ghost use Rattle.std.specs.Prelude.{Some};
    ghost use Rattle.plan_text.specs.FaultWords.{fault_words};

    ghost output = { λ fault. Some (fault_words fault.kind fault.key) };

    fn fmt<W: fmt::Write>(&self, f: &mut fmt::Formatter<W>) -> fmt::Result {
        let key = self.key.as_str();
        match self.kind {
            FaultKind::NotToml => write!(f, "toml"),
            FaultKind::Unknown => write!(f, "unknown {key}"),
            FaultKind::Missing => write!(f, "missing {key}"),
            FaultKind::WrongKind => write!(f, "kind {key}"),
            FaultKind::Range => write!(f, "range {key}"),
            FaultKind::Setting(fault) => write!(f, "{fault}"),
            FaultKind::Double => write!(f, "double {key}"),
            FaultKind::Line => write!(f, "line {key}"),
        }
    }
}

/// Why a text was not read.
#[derive(Debug, Drop)]
pub enum PlanError {
    Fault(PlanFault),
    NoMemory,
}

/// A fault of the whole text, which has no position.
pub(crate) fn text_fault(alloc: Global, kind: FaultKind) -> PlanError
    ensures { result ≡ Fault (record { kind = kind; key = [] }) }
{
    PlanError::Fault(PlanFault {
        kind,
        key: KeyText::of(String::new(alloc)),
    })
}

impl fmt::Display for PlanError {
    ghost use Rattle.std.specs.Prelude.{Some};
    ghost use Rattle.plan_text.specs.FaultWords.{error_words};

    ghost output = { λ error. Some (error_words error) };

    fn fmt<W: fmt::Write>(&self, f: &mut fmt::Formatter<W>) -> fmt::Result {
        match self {
            PlanError::Fault(fault) => write!(f, "{fault}"),
            PlanError::NoMemory => write!(f, "no memory"),
        }
    }
}

impl Error for PlanError {}

impl From<NoMemory> for PlanError {
    ghost from_gives = { λ _ error. error ≡ NoMemory };

    fn from(_: NoMemory) -> Self {
        PlanError::NoMemory
    }
}

impl From<AllocError> for PlanError {
    ghost from_gives = { λ _ error. error ≡ NoMemory };

    fn from(_: AllocError) -> Self {
        PlanError::NoMemory
    }
}

impl<T: Drop> From<AllocFailed<T>> for PlanError {
    ghost from_gives = { λ _ error. error ≡ NoMemory };

    fn from(_: AllocFailed<T>) -> Self {
        PlanError::NoMemory
    }
}
