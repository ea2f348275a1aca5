use seq_base::NoMemory;

/// Why a replica is not opened.
#[derive(Clone, Copy, Debug, PartialEq, Eq)]
pub enum OpenFault {
    /// The replica's number is not below the number of replicas.
    Number,
    /// The key has fewer than five seals for each view.
    Views,
    /// There is not one public key for each replica.
    Count,
    /// The secret's public key is not the one at the replica's number.
    Secret,
    /// The log does not start with a header.
    NoHeader,
    /// The log starts with the header of another owner: another setting, other views, another replica, or other keys.
    OtherLog,
    /// At this byte of the log, counted from its first, is a corrupt record: it is not torn, and it is no event's.
    Corrupt { at: usize },
    NoMemory,
}

impl From<NoMemory> for OpenFault {
    ghost use Rattle.std.specs.Prelude.{◌≡◌};
    ghost use Rattle.replica_box.specs.declared.fault.OpenFault.TheVariants as fault;

    ghost from_gives = { λ _ e. e ≡ fault.NoMemory };

    fn from(_: NoMemory) -> Self {
        OpenFault::NoMemory
    }
}

/// Why an event is not prepared.
#[derive(Clone, Copy, Debug, PartialEq, Eq)]
pub enum PrepareFault {
    /// The event does not fit a record.
    Long,
    /// The replica ran out of memory in an earlier turn. Reopen it from its log.
    Halted,
    NoMemory,
}

impl From<NoMemory> for PrepareFault {
    ghost use Rattle.std.specs.Prelude.{◌≡◌};
    ghost use Rattle.replica_box.specs.declared.fault.PrepareFault.TheVariants as fault;

    ghost from_gives = { λ _ e. e ≡ fault.NoMemory };

    fn from(_: NoMemory) -> Self {
        PrepareFault::NoMemory
    }
}

/// Why there was no turn.
#[derive(Clone, Copy, Debug, PartialEq, Eq)]
pub enum ActFault {
    /// No event is prepared.
    Unready,
    /// The replica ran out of memory in this turn or in an earlier one. Reopen it from its log.
    Halted,
    /// The event that was prepared first has no record, and its turn would now change the replica. It is no longer
    /// prepared.
    Again,
    /// The replica is as it was.
    NoMemory,
}
