//! A sink in memory.
ghost use Rattle.std.specs.Prelude.{◌≡◌, ◌↔◌, ◌⊎◌, ◌<◌, ◌≤◌, ◌^◌, ◌+◌, ◌++◌, [], Some, length, take, min, if◌then◌else◌, is_err, Contains, IfOk, IsErr, OnErr};
ghost use Rattle.desk_io.specs.Faults.{raised};

use crate::failing_calls::FailingCalls;
use crate::{Sink, WriteFailed};
use std::alloc::Global;
use std::marker::Model;
use want_of_memory::WantOfMemory;

/// Keeps what is written to it, up to its room. Writes fail by their number, and where no room is left.
/// A write takes no memory.
#[derive(Drop)]
pub struct MemSink {
    bytes: Vec<u8>,
    room: usize,
    piece: usize,
    calls: FailingCalls,
}

impl Model for MemSink {
    ghost use Rattle.std.specs.Prelude.{◌≤◌, ◌+◌, vec_len, vec_capacity};
    ghost use Rattle.desk_io.specs.MemSink.{SinkState};

    ghost Value = { SinkState };

    ghost view = { λ s. record {
      written = s.bytes.items;
      room = s.room;
      piece = s.piece;
      failing = s.calls.failing.items;
      writes = s.calls.made;
      faults = s.calls.faults;
    } };

    ghost invariant = { λ s. (vec_len s.bytes + s.room ≤ vec_capacity s.bytes) × (1 ≤ s.piece) };
}

impl MemSink {
    /// An empty sink with room for so many bytes, that takes at most `piece` of them a write. `failing`
    /// has the numbers, from 1 on, of the writes that fail. All the room is reserved here.
    pub fn new(
        alloc: Global,
        room: usize,
        piece: usize,
        failing: Vec<u32>,
    ) -> Result<MemSink, WantOfMemory>
        requires { 1 ≤ piece }
        ensures { IfOk result (λ sink. sink ≡ record {
          written = [];
          room = room;
          piece = piece;
          failing = failing.items;
          writes = 0;
          faults = 0;
        }) }
    {
        Ok(MemSink {
            bytes: Vec::with_capacity(alloc, room)?,
            room,
            piece,
            calls: FailingCalls::new(failing),
        })
    }

    /// What was written, from the first byte on.
    pub fn bytes(&self) -> &[u8]
        ensures { result.now ≡ self.now.written }
    {
        &self.bytes
    }
}

impl Sink for MemSink {
    ghost faults = { λ s. s.faults };

    ghost written = { λ s. Some s.written };

    fn write(&mut self, buf: &[u8]) -> Result<usize, WriteFailed>
        requires { 0 < length buf.now }

        // Exactly the writes with these numbers fail, and those with no room.
        ensures counted { self.new.writes ≡ raised self.old.writes }
        ensures fails { IsErr result ↔
            (Contains self.old.failing self.new.writes ⊎ (self.old.room ≡ 0)) }
        ensures faults { self.new.faults ≡
            (if is_err result then raised self.old.faults else self.old.faults) }
        ensures faults_kept { self.old.faults ≤ self.new.faults }
        ensures faults_fit { self.new.faults < 2 ^ 64 }
        ensures nothing_appended { OnErr result (self.new.written ≡ self.old.written) }
        ensures same_room { OnErr result (self.new.room ≡ self.old.room) }

        // Each of the others takes as many bytes as it can.
        ensures count { IfOk result (λ n.
            n ≡ min (min self.old.piece (length buf.now)) self.old.room) }
        ensures some { IfOk result (λ n. 0 < n) }
        ensures appended { IfOk result (λ n.
            self.new.written ≡ self.old.written ++ take n buf.now) }
        ensures room { IfOk result (λ n. self.old.room ≡ self.new.room + n) }

        ensures same_piece { self.new.piece ≡ self.old.piece }
        ensures same_failing { self.new.failing ≡ self.old.failing }
    {
        let fails = self.calls.next_fails();
        if fails || self.room == 0 {
            self.calls.add_fault();
            return Err(WriteFailed);
        }
        let count = buf.len().min(self.piece).min(self.room);
        // `new` reserved the room.
        let extended = self.bytes.extend_from_slice(&buf[..count]);
        prove!(extended.is_ok());
        self.room -= count;
        Ok(count)
    }
}
