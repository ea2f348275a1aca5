use seq_base::{Digest, NoMemory};
use std::error::Error;
use std::fmt;

/// Why a block is not stored.
#[derive(Clone, Copy, Debug, PartialEq, Eq)]
pub enum StoreFault {
    /// The block's parent is not stored.
    Orphan { parent: Digest },
    /// Another block has this digest.
    Clash { digest: Digest },
    NoMemory,
}

impl fmt::Display for StoreFault {
    ghost use Rattle.std.specs.Prelude.{Some};
    ghost use Rattle.block_store.specs.FaultWords.{fault_words};

    ghost output = { λ fault. Some (fault_words fault) };

    fn fmt<W: fmt::Write>(&self, f: &mut fmt::Formatter<W>) -> fmt::Result {
        f.write_str(match self {
            StoreFault::Orphan { .. } => "the parent is not stored",
            StoreFault::Clash { .. } => "another block has the digest",
            StoreFault::NoMemory => "no memory",
        })
    }
}

impl Error for StoreFault {}

impl From<NoMemory> for StoreFault {
    ghost use Rattle.std.specs.Prelude.{◌≡◌};
    ghost use Rattle.block_store.specs.declared.fault.StoreFault.{StoreFault};

    ghost from_gives = { λ _ fault. fault ≡ StoreFault.NoMemory };

    fn from(_: NoMemory) -> Self {
        StoreFault::NoMemory
    }
}
