ghost use Rattle.std.specs.Prelude.{◌≡◌, ◌≤◌, ℕ, None, IfOk, length};
ghost use Rattle.seq_io.specs.Device.{counted};

use crate::{Failed, Sink, Source};
use std::io;
use std::io::{ErrorKind, Read, Write};
use std::marker::Model;

/// How many times a call that a signal interrupts is retried at most.
const MAX_INTERRUPTIONS: u32 = 1_000_000;

/// A reader of the standard library as a source. It exposes no bytes to contracts, so nothing is proved about which
/// bytes it returns.
#[derive(Drop)]
pub struct RealSource<R: Read> {
    inner: R,
    faults: u64,
}

impl<R: Read> Model for RealSource<R> {
    ghost Value = { ℕ };

    ghost view = { λ s. s.faults };
}

impl<R: Read> RealSource<R> {
    /// The fault count is zero.
    pub fn new(inner: R) -> RealSource<R>
        ensures { result ≡ 0 }
    {
        RealSource { inner, faults: 0 }
    }
}

impl<R: Read> Source for RealSource<R> {
    ghost left = { λ _. None };

    ghost faults = { λ s. s };

    fn read(&mut self, into: &mut [u8]) -> Result<usize, Failed> {
        match read_uninterrupted(&mut self.inner, into) {
            Ok(count) => Ok(count),
            Err(_) => {
                count_fault(&mut self.faults);
                Err(Failed)
            }
        }
    }
}

/// A writer of the standard library as a sink. It exposes no bytes to contracts, so nothing is proved about which
/// bytes arrive.
#[derive(Drop)]
pub struct RealSink<W: Write> {
    inner: W,
    faults: u64,
}

impl<W: Write> Model for RealSink<W> {
    ghost Value = { ℕ };

    ghost view = { λ s. s.faults };
}

impl<W: Write> RealSink<W> {
    /// The fault count is zero.
    pub fn new(inner: W) -> RealSink<W>
        ensures { result ≡ 0 }
    {
        RealSink { inner, faults: 0 }
    }
}

impl<W: Write> Sink for RealSink<W> {
    ghost written = { λ _. None };

    ghost faults = { λ s. s };

    /// A writer that takes nothing of a piece that is not empty has failed.
    fn write(&mut self, piece: &[u8]) -> Result<usize, Failed> {
        match write_uninterrupted(&mut self.inner, piece) {
            Ok(count) if count > 0 || piece.is_empty() => Ok(count),
            _ => {
                count_fault(&mut self.faults);
                Err(Failed)
            }
        }
    }
}

/// Increments the fault count, unless it is at its maximum.
fn count_fault(faults: &mut u64)
    ensures value { faults.new ≡ counted faults.old }
    ensures later { faults.old ≤ faults.new }
{
    *faults = faults.saturating_add(1);
}

/// Reads once, and retries where a signal interrupted the call.
fn read_uninterrupted<R: Read>(inner: &mut R, into: &mut [u8]) -> io::Result<usize>
    ensures { IfOk result (λ k. k ≤ length into.new) }
{
    for _ in 0..MAX_INTERRUPTIONS {
        match inner.read(into) {
            Err(error) if error.kind() == ErrorKind::Interrupted => {}
            outcome => return outcome,
        }
    }
    inner.read(into)
}

/// Writes once, and retries where a signal interrupted the call.
fn write_uninterrupted<W: Write>(inner: &mut W, piece: &[u8]) -> io::Result<usize>
    ensures { IfOk result (λ k. k ≤ length piece.now) }
{
    for _ in 0..MAX_INTERRUPTIONS {
        match inner.write(piece) {
            Err(error) if error.kind() == ErrorKind::Interrupted => {}
            outcome => return outcome,
        }
    }
    inner.write(piece)
}
