ghost use Rattle.std.specs.Prelude.{◌≡◌};

use seq_base::NoMemory;
use std::error::Error;
use std::fmt;

/// Why a trace could not be audited.
#[derive(Clone, Copy, Debug, PartialEq, Eq)]
pub enum AuditFault {
    /// The bytes are no trace. `at` is the place of the first faulty field.
    BadTrace { at: u64 },
    /// The trace holds other public keys than those given, or a seed instead of public keys.
    OtherKeys,
    /// The trace holds these public keys, and is of a run with another setting, other views or another height.
    OtherRun,
    NoMemory,
}

impl From<NoMemory> for AuditFault {
    ghost use Rattle.std.specs.Prelude.{◌≡◌};
    ghost use Rattle.trace_audit.specs.declared.fault.AuditFault.TheVariants as fault;

    ghost from_gives = { λ _ e. e ≡ fault.NoMemory };

    fn from(_: NoMemory) -> Self {
        AuditFault::NoMemory
    }
}

impl fmt::Display for AuditFault {
    ghost use Rattle.std.specs.Prelude.{Some};
    ghost use Rattle.trace_audit.specs.AuditWords.{audit_words};

    ghost output = { λ fault. Some (audit_words fault) };

    fn fmt<W: fmt::Write>(&self, f: &mut fmt::Formatter<W>) -> fmt::Result {
        match self {
            AuditFault::BadTrace { at } => write!(f, "bad trace at byte {at}"),
            AuditFault::OtherKeys => write!(f, "the trace has other public keys"),
            AuditFault::OtherRun => {
                write!(
                    f,
                    "the trace has another setting, other views or another height"
                )
            }
            AuditFault::NoMemory => write!(f, "no memory"),
        }
    }
}

impl Error for AuditFault {}
