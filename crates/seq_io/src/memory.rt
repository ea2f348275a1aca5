ghost use Rattle.std.specs.Prelude.{◌≡◌, ◌≤◌, ◌<◌, ◌↔◌, ◌⊎◌, [], Some, Ok, Err, IfOk, OnOk, OnErr, IsErr, length, drop, min};
ghost use Rattle.seq_io.specs.Device.{Reads, Writes, Rose};

use crate::script::Calls;
use crate::{Failed, Sink, Source};
use seq_base::{Bytes, NoMemory};
use std::alloc::Global;
use std::marker::Model;

/// A source over bytes in memory. The calls whose numbers are listed, counted from 1, fail.
pub struct MemSource {
    bytes: Vec<u8>,
    taken: usize,
    calls: Calls,
}

impl Drop for MemSource {
    fn drop(self) {
        let MemSource {
            bytes: _,
            taken: _,
            calls: _,
        } = self;
    }
}

impl Model for MemSource {
    ghost use Rattle.std.specs.Prelude.{◌≤◌, length, drop};
    ghost use Rattle.seq_io.specs.Memory.{Input};

    ghost Value = { Input };

    ghost view = { λ s. record { left = drop s.taken s.bytes.items; script = s.calls } };

    ghost invariant = { λ s. s.taken ≤ length s.bytes.items };
}

impl MemSource {
    ghost use Rattle.seq_io.specs.Memory.{Input};

    pub fn new(bytes: Bytes, failing: Vec<u64>) -> MemSource
        ensures { result ≡ record { left = bytes; script = record { failing = failing.items; calls = 0; faults = 0 } } }
    {
        MemSource {
            bytes: bytes.into_vec(),
            taken: 0,
            calls: Calls::new(failing),
        }
    }
}

impl Source for MemSource {
    ghost use Rattle.std.specs.Prelude.{◌≡◌, ◌≤◌, ◌↔◌, Some, Err, IsErr, IfOk, OnOk, OnErr, length, min, drop};
    ghost use Rattle.seq_io.specs.Device.{Reads, Rose};
    ghost use Rattle.seq_io.specs.Memory.{Input, FailsNext, after_call, after_fault};

    ghost left = { λ s. Some s.left };

    ghost faults = { λ s. s.script.faults };

    /// Returns as many bytes as are left and fit into the buffer, unless the call is listed to fail.
    fn read(&mut self, into: &mut [u8]) -> Result<usize, Failed>
        // What every source owes.
        ensures ok { IfOk result (λ k. Reads k into.old into.new (Some self.old.left) (Some self.new.left)) }
        ensures quiet { OnOk result (self.new.script.faults ≡ self.old.script.faults) }
        ensures err { OnErr result (self.new.left ≡ self.old.left) }
        ensures later { self.old.script.faults ≤ self.new.script.faults }
        ensures cause { OnErr result (Rose self.old.script.faults self.new.script.faults) }

        // Which calls fail, how many bytes the others give, and the script after either.
        ensures fails { IsErr result ↔ FailsNext self.old.script }
        ensures count { IfOk result (λ k. k ≡ min (length self.old.left) (length into.old)) }
        ensures call { IfOk result (λ _. self.new.script ≡ after_call self.old.script) }
        ensures fault { OnErr result (self.new.script ≡ after_fault self.old.script) }
        // What stays in the buffer.
        ensures following { IfOk result (λ k. drop k into.new ≡ drop k into.old) }
        ensures kept { OnErr result (into.new ≡ into.old) }
    {
        if self.calls.fails_next() {
            self.calls.fail();
            return Err(Failed);
        }
        self.calls.succeed();
        let left = &self.bytes[self.taken..];
        let count = left.len().min(into.len());
        into[..count].copy_from_slice(&left[..count]);
        self.taken += count;
        Ok(count)
    }
}

/// A sink in memory of a fixed capacity, with a limit on the bytes of one write. The calls whose numbers are listed,
/// counted from 1, fail. A write of a piece that is not empty also fails where no room is left.
pub struct MemSink {
    bytes: Vec<u8>,
    most: usize,
    room: usize,
    calls: Calls,
}

impl Drop for MemSink {
    fn drop(self) {
        let MemSink {
            bytes: _,
            most: _,
            room: _,
            calls: _,
        } = self;
    }
}

impl Model for MemSink {
    ghost use Rattle.std.specs.Prelude.{◌≤◌, length, vec_capacity};
    ghost use Rattle.seq_io.specs.Memory.{Output};

    ghost Value = { Output };

    ghost view = { λ s. record { written = s.bytes.items; most = s.most; room = s.room; script = s.calls } };

    ghost invariant = { λ s. (1 ≤ s.most) × (length s.bytes.items ≤ s.room) × (s.room ≤ vec_capacity s.bytes) };
}

impl MemSink {
    ghost use Rattle.seq_io.specs.Memory.{Output};

    /// Takes the memory for its whole capacity, so that writes take none.
    pub fn new(
        alloc: Global,
        most: usize,
        room: usize,
        failing: Vec<u64>,
    ) -> Result<MemSink, NoMemory>
        requires { 1 ≤ most }
        ensures { IfOk result (λ sink. sink ≡ record {
          written = [];
          most = most;
          room = room;
          script = record { failing = failing.items; calls = 0; faults = 0 };
        }) }
    {
        let bytes = Vec::with_capacity(alloc, room)?;
        let calls = Calls::new(failing);
        Ok(MemSink {
            bytes,
            most,
            room,
            calls,
        })
    }

    /// The bytes written so far.
    pub fn written(&self) -> &[u8]
        ensures { result.now ≡ self.now.written }
    {
        self.bytes.as_slice()
    }
}

impl Sink for MemSink {
    ghost use Rattle.std.specs.Prelude.{◌≡◌, ◌≤◌, ◌⊎◌, ◌↔◌, Some, Err, IsErr, IfOk, OnOk, OnErr, length, min};
    ghost use Rattle.seq_io.specs.Device.{Writes, Rose};
    ghost use Rattle.seq_io.specs.Memory.{Output, FailsNext, IsFullFor, taken_of, after_call, after_fault};

    ghost written = { λ s. Some s.written };

    ghost faults = { λ s. s.script.faults };

    /// Takes as many bytes as the piece has, the room holds and one write may take.
    fn write(&mut self, piece: &[u8]) -> Result<usize, Failed>
        // What every sink owes.
        ensures ok { IfOk result (λ k. Writes k piece.now (Some self.old.written) (Some self.new.written)) }
        ensures quiet { OnOk result (self.new.script.faults ≡ self.old.script.faults) }
        ensures err { OnErr result (self.new.written ≡ self.old.written) }
        ensures later { self.old.script.faults ≤ self.new.script.faults }
        ensures cause { OnErr result (Rose self.old.script.faults self.new.script.faults) }

        // Which calls fail, and how many bytes the others take.
        ensures fails { IsErr result ↔ (FailsNext self.old.script ⊎ IsFullFor self.old piece.now) }
        ensures count { IfOk result (λ k. k ≡ taken_of self.old piece.now) }
        // What stays, and the script after either.
        ensures limits { (self.new.most ≡ self.old.most) × (self.new.room ≡ self.old.room) }
        ensures call { IfOk result (λ _. self.new.script ≡ after_call self.old.script) }
        ensures fault { OnErr result (self.new.script ≡ after_fault self.old.script) }
    {
        let room = self.room - self.bytes.len();
        if self.calls.fails_next() || (room == 0 && !piece.is_empty()) {
            self.calls.fail();
            return Err(Failed);
        }
        self.calls.succeed();
        let count = self.most.min(piece.len().min(room));
        // There is room, so this takes no memory.
        self.bytes.extend_from_slice(&piece[..count]).unwrap();
        Ok(count)
    }
}
