//! Sources and sinks: the bytes that they read and write, and the faults that they count.
use crate::cases::check_cases;
use seq_base::Bytes;
use seq_io::{MemSink, MemSource, RealSink, RealSource, Sink, Source, SteadySink, SteadySource};
use std::alloc::Global;
use std::fmt::Write;
use std::io;
use std::test::Fail;

/// A device in memory moves what is left and fails at the given calls. A steady device never fails. A real one reports
/// faults and retries after signals.
const DEVICES: &str = "\
source|memory|3abc failed 2de 0 
source|steady|3abc 1d 0 
source|real|failed 1x 
sink|memory|2 1 failed 2 failed 0 :abcde
sink|steady|3 
sink|real|failed 1 
sink|stuck|failed 0 
";

#[test]
fn devices_move_their_bytes(rt: HostRuntime) -> Result<(), Fail> {
    check_cases(rt.alloc(), DEVICES)
}

pub(crate) fn write_source(answer: &mut String, alloc: Global, device: &str) -> Result<(), Fail> {
    match device {
        "memory" => write_memory_source(answer, alloc),
        "steady" => {
            let mut source = SteadySource::new(Bytes::of(b"abcd".to_vec(alloc)?));
            read_pieces(answer, &mut source, 3)
        }
        _ => read_pieces(answer, &mut RealSource::new(Unsteady { calls: 0 }), 2),
    }
}

fn write_memory_source(answer: &mut String, alloc: Global) -> Result<(), Fail> {
    let faults = vec![in alloc; 2]?;
    let mut source = MemSource::new(Bytes::of(b"abcde".to_vec(alloc)?), faults);
    read_pieces(answer, &mut source, 4)
}

pub(crate) fn write_sink(answer: &mut String, alloc: Global, device: &str) -> Result<(), Fail> {
    match device {
        "memory" => write_memory_sink(answer, alloc),
        "steady" => write_pieces(answer, &mut SteadySink::new(), "abc/"),
        "real" => {
            let mut sink = RealSink::new(Unsteady { calls: 0 });
            write_pieces(answer, &mut sink, "ab/ab/")
        }
        _ => write_pieces(answer, &mut RealSink::new(Stuck), "ab//"),
    }
}

/// The answers of a sink in memory to each piece, and its content afterwards.
fn write_memory_sink(answer: &mut String, alloc: Global) -> Result<(), Fail> {
    let mut sink = MemSink::new(alloc, 2, 5, vec![in alloc; 3]?)?;
    write_pieces(answer, &mut sink, "abc/c/de/de/f//")?;
    write_text(answer, sink.written())
}

fn write_text(answer: &mut String, bytes: &[u8]) -> Result<(), Fail> {
    answer.push(':')?;
    for byte in bytes {
        answer.push(char::from(*byte))?;
    }
    Ok(())
}

/// Reads from a source this many times, at most three bytes each time. Writes the count and the bytes of each read, or
/// `failed`.
fn read_pieces(answer: &mut String, source: &mut impl Source, calls: u32) -> Result<(), Fail> {
    for _ in 0..calls {
        let mut buffer = [0; 3];
        match source.read(&mut buffer) {
            Ok(count) => write_piece(answer, &buffer, count)?,
            Err(_) => answer.push_str("failed ")?,
        }
    }
    Ok(())
}

fn write_piece(answer: &mut String, buffer: &[u8], count: usize) -> Result<(), Fail> {
    write!(answer, "{count}")?;
    for byte in buffer.iter().take(count) {
        answer.push(char::from(*byte))?;
    }
    answer.push(' ')?;
    Ok(())
}

/// Passes the pieces, each of which ends with a slash, to a sink. Writes the count of bytes that it accepts, or
/// `failed`, for each.
fn write_pieces(answer: &mut String, sink: &mut impl Sink, pieces: &str) -> Result<(), Fail> {
    for piece in pieces.split_terminator('/') {
        match sink.write(piece.as_bytes()) {
            Ok(count) => write!(answer, "{count} ")?,
            Err(_) => answer.push_str("failed ")?,
        }
    }
    Ok(())
}

/// A reader and a writer. Of every three calls the first fails, the second is interrupted, and the third moves one
/// byte.
#[derive(Drop)]
struct Unsteady {
    calls: u32,
}

impl Unsteady {
    fn step(&mut self) -> io::Result<usize> {
        self.calls = self.calls.saturating_add(1);
        match self.calls % 3 {
            1 => Err(io::Error::from(io::ErrorKind::Other)),
            2 => Err(io::Error::from(io::ErrorKind::Interrupted)),
            _ => Ok(1),
        }
    }
}

impl io::Read for Unsteady {
    fn read(&mut self, buf: &mut [u8]) -> io::Result<usize> {
        buf.fill(b'x');
        Ok(self.step()?.min(buf.len()))
    }
}

impl io::Write for Unsteady {
    fn write(&mut self, buf: &[u8]) -> io::Result<usize> {
        Ok(self.step()?.min(buf.len()))
    }

    fn flush(&mut self) -> io::Result<()> {
        Ok(())
    }
}

/// A writer that accepts no byte.
#[derive(Drop)]
struct Stuck;

impl io::Write for Stuck {
    fn write(&mut self, _: &[u8]) -> io::Result<usize> {
        Ok(0)
    }

    fn flush(&mut self) -> io::Result<()> {
        Ok(())
    }
}
