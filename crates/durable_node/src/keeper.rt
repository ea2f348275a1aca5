//! The device that keeps the bytes of a log over crashes.
ghost use Rattle.std.specs.Prelude.{◌≡◌, ◌≤◌, ◌<◌, ◌+◌, ◌-◌, ◌^◌, ◌++◌, ℕ, List, Bool, true, false, Err, IfOk, OnOk, OnErr, length, take, drop, min};
ghost use Rattle.durable_node.specs.Keeping.{Copies, Grew, Stays};

/// Why a call of a keeper was refused.
#[derive(Clone, Copy, Debug, PartialEq, Eq)]
pub enum KeepFault {
    /// The keeper failed. Its count of faults increased in that call.
    Failed,
    NoMemory,
}

/// Bytes that persist. A crash leaves the durable ones.
pub trait Keeper: Drop {
    /// All its bytes.
    ghost bytes: { Self → List ℕ };

    /// How many of its first bytes are durable: a crash leaves them.
    ghost durable_size: { Self → ℕ };

    /// How often a call has failed.
    ghost faults: { Self → ℕ };

    /// How often it was opened.
    ghost openings: { Self → ℕ };

    /// Whether it is open: it takes bytes.
    ghost begun: { Self → Bool };

    /// Copies bytes from an offset on to the start of a buffer, and returns their number. It copies none only at the
    /// end.
    fn read(&mut self, at: u64, into: &mut [u8]) -> Result<usize, KeepFault>
        ensures ok { IfOk result (λ k. Copies k (drop at (bytes self.old)) into.old into.new) }
        ensures bytes { bytes self.new ≡ bytes self.old }
        ensures durable_size { durable_size self.new ≡ durable_size self.old }
        ensures openings { openings self.new ≡ openings self.old }
        ensures begun { begun self.new ≡ begun self.old }
        ensures later { faults self.old ≤ faults self.new }
        ensures cause { result ≡ Err KeepFault.Failed → faults self.old < faults self.new };

    /// Truncates the bytes to a size, makes them durable, and opens the keeper. A refused call may have truncated some
    /// of the bytes after that size.
    fn begin(&mut self, size: u64) -> Result<(), KeepFault>
        requires idle { begun self.old ≡ false }
        requires countable { openings self.old < 2 ^ 64 - 1 }
        requires within { size ≤ length (bytes self.old) }
        // The bytes up to the size are left, all durable, and the keeper is open.
        ensures cut { OnOk result (bytes self.new ≡ take size (bytes self.old)) }
        ensures durable_size { OnOk result (durable_size self.new ≡ size) }
        ensures begun { OnOk result (begun self.new ≡ true) }
        ensures opened { OnOk result (openings self.new ≡ openings self.old + 1) }
        // A refused call leaves it closed. Of the bytes up to the size, all stay, and those that were durable still are.
        ensures refused { OnErr result (Stays size (bytes self.old) (bytes self.new)) }
        ensures falls { OnErr result (min size (durable_size self.old) ≤ durable_size self.new) }
        ensures idle { OnErr result (begun self.new ≡ false) }
        ensures unopened { OnErr result (openings self.new ≡ openings self.old) }
        // It fails only where the count of faults rises.
        ensures later { faults self.old ≤ faults self.new }
        ensures cause { result ≡ Err KeepFault.Failed → faults self.old < faults self.new };

    /// Appends a piece to the bytes. A refused call may have appended a prefix of it.
    fn append(&mut self, piece: &[u8]) -> Result<(), KeepFault>
        requires begun { begun self.old ≡ true }
        ensures ok { OnOk result (bytes self.new ≡ bytes self.old ++ piece.now) }
        ensures refused { OnErr result (Grew piece.now (bytes self.old) (bytes self.new)) }
        ensures durable_size { durable_size self.old ≤ durable_size self.new }
        ensures openings { openings self.new ≡ openings self.old }
        ensures begun { begun self.new ≡ true }
        ensures later { faults self.old ≤ faults self.new }
        ensures cause { result ≡ Err KeepFault.Failed → faults self.old < faults self.new };

    /// Makes all bytes durable.
    fn sync(&mut self) -> Result<(), KeepFault>
        requires begun { begun self.old ≡ true }
        ensures ok { OnOk result (durable_size self.new ≡ length (bytes self.new)) }
        ensures bytes { bytes self.new ≡ bytes self.old }
        ensures durable_size { durable_size self.old ≤ durable_size self.new }
        ensures openings { openings self.new ≡ openings self.old }
        ensures begun { begun self.new ≡ true }
        ensures later { faults self.old ≤ faults self.new }
        ensures cause { result ≡ Err KeepFault.Failed → faults self.old < faults self.new };

    /// The crash. The durable bytes stay, followed by a prefix of the others.
    fn stop(&mut self)
        ensures bytes { Stays (durable_size self.old) (bytes self.old) (bytes self.new) }
        ensures durable_size { durable_size self.old ≤ durable_size self.new }
        ensures openings { openings self.new ≡ openings self.old }
        ensures begun { begun self.new ≡ false }
        ensures later { faults self.old ≤ faults self.new };
}
