//! The texts of the faults.
use crate::{KeepFault, KeptFault};
use std::error::Error;
use std::fmt;

impl fmt::Display for KeepFault {
    ghost use Rattle.std.specs.Prelude.{Some};
    ghost use Rattle.durable_node.specs.FaultWords.{keep_words};

    ghost output = { λ fault. Some (keep_words fault) };

    fn fmt<W: fmt::Write>(&self, f: &mut fmt::Formatter<W>) -> fmt::Result {
        f.write_str(match self {
            KeepFault::Failed => "the keeper failed",
            KeepFault::NoMemory => "no memory",
        })
    }
}

impl Error for KeepFault {}

impl fmt::Display for KeptFault {
    ghost use Rattle.std.specs.Prelude.{Some};
    ghost use Rattle.durable_node.specs.FaultWords.{kept_words};

    ghost output = { λ fault. Some (kept_words fault) };

    fn fmt<W: fmt::Write>(&self, f: &mut fmt::Formatter<W>) -> fmt::Result {
        match self {
            KeptFault::Keep => write!(f, "the keeper failed"),
            KeptFault::NoHeader => write!(f, "the log has no header"),
            KeptFault::OtherLog => write!(f, "the log has another header"),
            KeptFault::BadLog { at } => write!(f, "corrupt record at byte {at}"),
            KeptFault::Closed => write!(f, "the node is closed"),
            KeptFault::NoMemory => write!(f, "no memory"),
        }
    }
}

impl Error for KeptFault {}
