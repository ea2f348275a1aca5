//! The texts of the faults.
use crate::{ActFault, OpenFault, PrepareFault};
use std::error::Error;
use std::fmt;

impl fmt::Display for OpenFault {
    ghost use Rattle.std.specs.Prelude.{Some};
    ghost use Rattle.replica_box.specs.FaultWords.{open_words};

    ghost output = { λ fault. Some (open_words fault) };

    fn fmt<W: fmt::Write>(&self, f: &mut fmt::Formatter<W>) -> fmt::Result {
        match self {
            OpenFault::Number => write!(f, "the number is not below that of the replicas"),
            OpenFault::Views => write!(f, "the key has too few seals for the views"),
            OpenFault::Count => write!(f, "not one public key for each replica"),
            OpenFault::Secret => write!(f, "the secret is that of another public key"),
            OpenFault::NoHeader => write!(f, "the log does not begin with a header"),
            OpenFault::OtherLog => write!(f, "the log is another's"),
            OpenFault::Corrupt { at } => write!(f, "corrupt record at byte {at}"),
            OpenFault::NoMemory => write!(f, "no memory"),
        }
    }
}

impl Error for OpenFault {}

impl fmt::Display for PrepareFault {
    ghost use Rattle.std.specs.Prelude.{Some};
    ghost use Rattle.replica_box.specs.FaultWords.{prepare_words};

    ghost output = { λ fault. Some (prepare_words fault) };

    fn fmt<W: fmt::Write>(&self, f: &mut fmt::Formatter<W>) -> fmt::Result {
        f.write_str(match self {
            PrepareFault::Long => "the event does not fit a record",
            PrepareFault::Halted => "the replica has halted",
            PrepareFault::NoMemory => "no memory",
        })
    }
}

impl Error for PrepareFault {}

impl fmt::Display for ActFault {
    ghost use Rattle.std.specs.Prelude.{Some};
    ghost use Rattle.replica_box.specs.FaultWords.{act_words};

    ghost output = { λ fault. Some (act_words fault) };

    fn fmt<W: fmt::Write>(&self, f: &mut fmt::Formatter<W>) -> fmt::Result {
        f.write_str(match self {
            ActFault::Unready => "no event is prepared",
            ActFault::Halted => "the replica has halted",
            ActFault::Again => "the event has to be prepared again",
            ActFault::NoMemory => "no memory",
        })
    }
}

impl Error for ActFault {}
