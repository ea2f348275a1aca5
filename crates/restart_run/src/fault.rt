use seq_base::NoMemory;
use std::error::Error;
use std::fmt;

/// Why there is no run.
#[derive(Drop)]
pub enum PlayFault<K> {
    /// The keeper of this replica failed: its count of faults increased. It is returned, and the other keepers are
    /// dropped.
    Keep { replica: u32, keeper: K },
    NoMemory,
}

impl<K> fmt::Display for PlayFault<K> {
    ghost use Rattle.std.specs.Prelude.{Some};
    ghost use Rattle.restart_run.specs.FaultWords.{fault_words};

    ghost output = { λ fault. Some (fault_words fault) };

    fn fmt<W: fmt::Write>(&self, f: &mut fmt::Formatter<W>) -> fmt::Result {
        match self {
            PlayFault::Keep { replica, .. } => write!(f, "the keeper of replica {replica} failed"),
            PlayFault::NoMemory => write!(f, "no memory"),
        }
    }
}

/// The keeper is left out, so that it needs no `Debug`.
impl<K> fmt::Debug for PlayFault<K> {
    fn fmt<W: fmt::Write>(&self, f: &mut fmt::Formatter<W>) -> fmt::Result {
        match self {
            PlayFault::Keep { replica, .. } => write!(f, "Keep {{ replica: {replica}, .. }}"),
            PlayFault::NoMemory => write!(f, "NoMemory"),
        }
    }
}

impl<K: Drop> Error for PlayFault<K> {}

impl<K> From<NoMemory> for PlayFault<K> {
    ghost use Rattle.std.specs.Prelude.{◌≡◌};
    ghost use Rattle.restart_run.specs.declared.fault.PlayFault.TheVariants as fault;

    ghost from_gives = { λ _ e. e ≡ fault.NoMemory };

    fn from(_: NoMemory) -> Self {
        PlayFault::NoMemory
    }
}
