use std::error::Error;
use std::fmt;

/// Why bytes are not a message: the first fault from left to right.
#[derive(Clone, Copy, Debug, PartialEq, Eq)]
pub enum WireFault {
    /// The bytes end inside a field.
    Short,
    /// Bytes follow a complete message.
    Trailing,
    /// The second byte is not the kind of a message, or an order inside a block or a vote does not begin with the
    /// kind of an order.
    Kind,
    /// The first byte is not the version of the wire form.
    Version,
    /// A count or a length is above its limit.
    Count,
    /// The replicas of a certificate or a block are not strictly ascending, or a list has a transaction twice.
    Shape,
}

impl fmt::Display for WireFault {
    ghost use Rattle.std.specs.Prelude.{Some};
    ghost use Rattle.wire_view.specs.FaultWords.{fault_words};

    ghost output = { λ fault. Some (fault_words fault) };

    fn fmt<W: fmt::Write>(&self, f: &mut fmt::Formatter<W>) -> fmt::Result {
        f.write_str(match self {
            WireFault::Short => "the bytes end inside a field",
            WireFault::Trailing => "bytes follow the message",
            WireFault::Kind => "no such kind",
            WireFault::Version => "another version",
            WireFault::Count => "a count is over its limit",
            WireFault::Shape => "replicas do not ascend, or a transaction is repeated",
        })
    }
}

impl Error for WireFault {}
