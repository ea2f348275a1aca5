ghost use Rattle.std.specs.Prelude.{◌≡◌, ◌≤◌, List, ℕ, Some, None, IfOk, IsOk, length, drop, min};
ghost use Rattle.seq_io.specs.Device.{Reads, Writes};

use crate::{Failed, Sink, Source};
use seq_base::Bytes;
use std::marker::Model;

/// A source over bytes in memory that never fails.
pub struct SteadySource {
    bytes: Vec<u8>,
    taken: usize,
}

impl Drop for SteadySource {
    fn drop(self) {
        let SteadySource { bytes: _, taken: _ } = self;
    }
}

impl Model for SteadySource {
    ghost use Rattle.std.specs.Prelude.{◌≤◌, List, ℕ, length, drop};

    ghost Value = { List ℕ };

    ghost view = { λ s. drop s.taken s.bytes.items };

    ghost invariant = { λ s. s.taken ≤ length s.bytes.items };
}

impl SteadySource {
    pub fn new(bytes: Bytes) -> SteadySource
        ensures { result ≡ bytes }
    {
        SteadySource {
            bytes: bytes.into_vec(),
            taken: 0,
        }
    }
}

impl Source for SteadySource {
    ghost left = { λ s. Some s };

    ghost faults = { λ _. 0 };

    /// Returns as many bytes as are left and fit into the buffer.
    fn read(&mut self, into: &mut [u8]) -> Result<usize, Failed>
        ensures ok { IfOk result (λ k. Reads k into.old into.new (Some self.old) (Some self.new)) }
        ensures steady { IsOk result }
        ensures count { IfOk result (λ k. k ≡ min (length self.old) (length into.old)) }
        ensures following { IfOk result (λ k. drop k into.new ≡ drop k into.old) }
    {
        let left = &self.bytes[self.taken..];
        let count = left.len().min(into.len());
        into[..count].copy_from_slice(&left[..count]);
        self.taken += count;
        Ok(count)
    }
}

/// A sink that takes each piece whole, never fails, stores nothing, and exposes no bytes to contracts.
#[derive(Clone, Copy)]
pub struct SteadySink;

impl SteadySink {
    pub fn new() -> SteadySink {
        SteadySink
    }
}

impl Sink for SteadySink {
    ghost written = { λ _. None };

    ghost faults = { λ _. 0 };

    fn write(&mut self, piece: &[u8]) -> Result<usize, Failed>
        ensures ok { IfOk result (λ k. Writes k piece.now None None) }
        ensures steady { IsOk result }
        ensures whole { IfOk result (λ k. k ≡ length piece.now) }
    {
        Ok(piece.len())
    }
}
