use seq_base::NoMemory;

/// Why a batch is not added to what is final.
#[derive(Clone, Copy, Debug, PartialEq, Eq)]
pub enum AddFault {
    /// The transaction at this position of the batch is final already.
    AlreadyFinal { at: usize },
    NoMemory,
}

impl From<NoMemory> for AddFault {
    ghost use Rattle.std.specs.Prelude.{◌≡◌};
    ghost use Rattle.session_rules.specs.declared.fault.AddFault.TheVariants as fault;

    ghost from_gives = { λ _ e. e ≡ fault.NoMemory };

    fn from(_: NoMemory) -> Self {
        AddFault::NoMemory
    }
}

/// Why a list may not be what arrived at a replica in a session.
#[derive(Clone, Copy, Debug, PartialEq, Eq)]
pub enum ArrivalFault {
    /// The transaction at this position was final before the session.
    AlreadyFinal { at: usize },
    /// The transaction at this position is of the reserved client, and not the session's marker.
    OtherMarker { at: usize },
    /// What is carried over does not arrive first, in its order.
    NotCarried,
    NoMemory,
}

impl From<NoMemory> for ArrivalFault {
    ghost use Rattle.std.specs.Prelude.{◌≡◌};
    ghost use Rattle.session_rules.specs.declared.fault.ArrivalFault.TheVariants as fault;

    ghost from_gives = { λ _ e. e ≡ fault.NoMemory };

    fn from(_: NoMemory) -> Self {
        ArrivalFault::NoMemory
    }
}
