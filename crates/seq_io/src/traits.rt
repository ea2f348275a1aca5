ghost use Rattle.std.specs.Prelude.{◌≡◌, ◌≤◌, ℕ, List, Option, IfOk, OnOk, OnErr};
ghost use Rattle.seq_io.specs.Device.{Reads, Writes, Rose};

use std::error::Error;
use std::fmt;

/// A source or a sink failed. Its fault count increased in that call, or is at its maximum.
#[derive(Clone, Copy, Debug, PartialEq, Eq)]
pub struct Failed;

impl fmt::Display for Failed {
    ghost use Rattle.std.specs.Prelude.{Some, codes};

    ghost output = { λ _. Some (codes "failed") };

    fn fmt<W: fmt::Write>(&self, f: &mut fmt::Formatter<W>) -> fmt::Result {
        f.write_str("failed")
    }
}

impl Error for Failed {}

/// A source of bytes.
pub trait Source {
    /// The bytes that are left to read, where the source exposes them.
    ghost left: { Self → Option (List ℕ) };

    /// The number of calls that have failed.
    ghost faults: { Self → ℕ };

    /// Fills a prefix of the buffer and returns its length. A result of 0 for a buffer that is not empty means end of
    /// input.
    fn read(&mut self, into: &mut [u8]) -> Result<usize, Failed>
        ensures ok { IfOk result (λ k. Reads k into.old into.new (left self.old) (left self.new)) }
        ensures quiet { OnOk result (faults self.new ≡ faults self.old) }
        ensures err { OnErr result (left self.new ≡ left self.old) }
        ensures later { faults self.old ≤ faults self.new }
        ensures cause { OnErr result (Rose (faults self.old) (faults self.new)) };
}

/// A sink of bytes.
pub trait Sink {
    /// The bytes that were written, where the sink exposes them.
    ghost written: { Self → Option (List ℕ) };

    /// The number of calls that have failed.
    ghost faults: { Self → ℕ };

    /// Takes a prefix of the piece and returns its length, which is at least one where the piece is not empty.
    fn write(&mut self, piece: &[u8]) -> Result<usize, Failed>
        ensures ok { IfOk result (λ k. Writes k piece.now (written self.old) (written self.new)) }
        ensures quiet { OnOk result (faults self.new ≡ faults self.old) }
        ensures err { OnErr result (written self.new ≡ written self.old) }
        ensures later { faults self.old ≤ faults self.new }
        ensures cause { OnErr result (Rose (faults self.old) (faults self.new)) };
}
