//! A source in memory.
ghost use Rattle.std.specs.Prelude.{◌≡◌, ◌↔◌, ◌<◌, ◌≤◌, ◌^◌, ◌++◌, [], Some, length, take, min, if◌then◌else◌, is_err, Contains, IfOk, IsOk, IsErr, OnErr};
ghost use Rattle.desk_io.specs.Faults.{raised};
ghost use Rattle.std.proofs.Common.{◌∙◌};
ghost use Rattle.desk_io.specs.MemSource.{ReadsOnTo, reads_on_to_itself, reads_on_further};

use crate::failing_calls::FailingCalls;
use crate::{ReadFailed, Source};
use std::marker::Model;

/// Gives its bytes in pieces. Reads fail by their number. A read takes no memory.
#[derive(Drop)]
pub struct MemSource {
    bytes: Vec<u8>,
    at: usize,
    piece: usize,
    calls: FailingCalls,
}

impl Model for MemSource {
    ghost use Rattle.std.specs.Prelude.{◌≤◌, drop, length};
    ghost use Rattle.desk_io.specs.MemSource.{SourceState};

    ghost Value = { SourceState };

    ghost view = { λ s. record {
      left = drop s.at s.bytes.items;
      piece = s.piece;
      failing = s.calls.failing.items;
      reads = s.calls.made;
      faults = s.calls.faults;
    } };

    ghost invariant = { λ s. (s.at ≤ length s.bytes.items) × (1 ≤ s.piece) };
}

impl MemSource {
    /// A source of these bytes, at most `piece` of them a read. `failing` has the numbers, from 1 on,
    /// of the reads that fail.
    pub fn new(bytes: Vec<u8>, piece: usize, failing: Vec<u32>) -> MemSource
        requires { 1 ≤ piece }
        ensures { result ≡ record {
          left = bytes.items;
          piece = piece;
          failing = failing.items;
          reads = 0;
          faults = 0;
        } }
    {
        MemSource {
            bytes,
            at: 0,
            piece,
            calls: FailingCalls::new(failing),
        }
    }
}

impl Source for MemSource {
    ghost faults = { λ s. s.faults };

    ghost left = { λ s. Some s.left };

    ghost never_fails = { λ s. s.failing ≡ [] };

    ghost later = { ReadsOnTo };

    ghost later_reflexive = { reads_on_to_itself };

    ghost later_transitive = { reads_on_further };

    ghost later_gives = { λ before after later. (later.given, later.left) };

    ghost later_faults = { λ before after later. later.faults };

    ghost later_promise = { λ before after later never. later.failing ∙ never };

    fn read(&mut self, buf: &mut [u8]) -> Result<usize, ReadFailed>
        requires { 0 < length buf.old }

        // Exactly the reads with these numbers fail.
        ensures counted { self.new.reads ≡ raised self.old.reads }
        ensures fails { IsErr result ↔ Contains self.old.failing self.new.reads }
        ensures faults { self.new.faults ≡
            (if is_err result then raised self.old.faults else self.old.faults) }
        ensures faults_fit { self.new.faults < 2 ^ 64 }
        ensures nothing_taken { OnErr result (self.new.left ≡ self.old.left) }

        // Each of the others gives as many bytes as it can.
        ensures count { IfOk result (λ n.
            n ≡ min (min self.old.piece (length buf.old)) (length self.old.left)) }
        ensures given { IfOk result (λ n. self.old.left ≡ take n buf.new ++ self.new.left) }
        ensures end { IfOk result (λ n. n ≡ 0 → self.new.left ≡ []) }

        ensures is_later { ReadsOnTo self.old self.new }
    {
        if self.calls.next_fails() {
            self.calls.add_fault();
            return Err(ReadFailed);
        }
        let rest = &self.bytes[self.at..];
        let count = rest.len().min(buf.len()).min(self.piece);
        buf[..count].copy_from_slice(&rest[..count]);
        self.at += count;
        Ok(count)
    }
}
