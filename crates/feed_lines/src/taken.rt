//! The bytes taken from a source.
ghost use Rattle.std.specs.Prelude.{◌≡◌, ◌⊎◌, ◌+◌, ◌-◌, ◌<◌, ◌≤◌, [], false, true, length, take, drop, vec_len, vec_capacity, MatchOption, MatchBool, ℕ, IfOk, IsOk, OnOk, OnErr};
ghost use Rattle.std.specs.Io.KnownBytes.{IsAtEnd};
ghost use Rattle.scan_types.specs.declared.limits.TheConstants.{MOST_FEED_BYTES};
ghost use Rattle.desk_io.specs.Faults.{Rose};
ghost use Rattle.feed_definitions.specs.Lines.{pieces};
ghost use Rattle.feed_lines.specs.Taking.{GoesOn, IsOneLine, IsEndedAt, FoundSo, looked_at, is_failed, is_drained};

use crate::find::find;
use crate::limits::{MOST_TAKEN, READ_BYTES};
use desk_io::{ReadFailed, Source};
use scan_types::{MOST_FEED_BYTES, WantOfMemory};
use std::alloc::Global;

/// The bytes taken, and where the next line starts.
#[derive(Drop)]
pub struct Taken {
    /// The bytes in their order, at most `MOST_TAKEN`.
    pub bytes: Vec<u8>,
    /// The index in `bytes` at which the next line starts.
    pub start: usize,
    ghost start_within: { start ≤ vec_len bytes },
}

/// What a search for the next line feed came to. Only the first `MOST_FEED_BYTES` bytes are looked at.
#[derive(Clone, Copy)]
pub enum Search {
    /// A line feed stands at this index.
    LineFeed(usize),
    /// No line feed stands after the start, and there are more bytes than are looked at.
    TooLarge,
    /// No line feed stands after the start, and a read has answered that no bytes are left.
    Drained,
    /// No line feed stands after the start, and a read failed.
    Failed,
}

impl Taken {
    /// No bytes yet. Takes no memory.
    pub fn new(alloc: Global) -> Taken
        ensures bytes { result.bytes.items ≡ [] }
        ensures start { result.start ≡ 0 }
    {
        Taken {
            bytes: Vec::new(alloc),
            start: 0,
        }
    }

    /// Makes room for all bytes that a reader may take.
    pub fn reserve(&mut self) -> Result<(), WantOfMemory>
        requires { length self.old.bytes.items ≤ 4198400 }
        ensures same { self.new.bytes.items ≡ self.old.bytes.items }
        ensures start { self.new.start ≡ self.old.start }
        ensures room { OnOk result (4198400 ≤ vec_capacity self.new.bytes) }
    {
        self.bytes.reserve(MOST_TAKEN - self.bytes.len())?;
        Ok(())
    }

    /// The bytes that are looked at: the first `MOST_FEED_BYTES`.
    pub fn looked_at(&self) -> &[u8]
        ensures { result.now ≡ looked_at self.now.bytes.items }
    {
        if self.bytes.len() > MOST_FEED_BYTES {
            &self.bytes[..MOST_FEED_BYTES]
        } else {
            &self.bytes
        }
    }

    /// The index of the first line feed from this index on, among the bytes that are looked at.
    fn line_feed_from(&self, from: usize) -> Option<usize>
        requires { from ≤ length (looked_at self.now.bytes.items) }
        ensures { MatchOption result
            (IsOneLine (drop from (looked_at self.now.bytes.items)))
            (λ end. IsEndedAt (looked_at self.now.bytes.items) from end) }
    {
        let looked = self.looked_at();
        find(&looked[from..], b'\n').map(|at| from + at)
    }

    /// Whether a line feed stands from the start on, among the bytes that are looked at.
    pub fn has_line(&self) -> bool
        requires { self.now.start ≤ length (looked_at self.now.bytes.items) }
        ensures { MatchBool result
            ((end : ℕ) × IsEndedAt (looked_at self.now.bytes.items) self.now.start end)
            (IsOneLine (drop self.now.start (looked_at self.now.bytes.items))) }
    {
        match self.line_feed_from(self.start) {
            Some(_) => true,
            None => false,
        }
    }

    /// Makes one read, and returns how many bytes it took: 0 only if none are left.
    pub fn read_more<S: Source>(&mut self, source: &mut S) -> Result<usize, ReadFailed>
        requires { vec_len self.old.bytes + 4096 ≤ vec_capacity self.old.bytes }
        ensures start { self.new.start ≡ self.old.start }
        ensures room { vec_capacity self.old.bytes ≤ vec_capacity self.new.bytes }
        ensures goes_on { GoesOn (S.left source.old) (S.left source.new) self.old.bytes.items self.new.bytes.items
            (S.faults source.old) (S.faults source.new) (S.later source.old source.new) (S.never_fails source.old → S.never_fails source.new) }
        ensures count { IfOk result (λ count. (vec_len self.new.bytes ≡ vec_len self.old.bytes + count) × (count ≤ 4096)) }
        ensures end { IfOk result (λ count. count ≡ 0 → IsAtEnd (S.left source.new)) }
        ensures nothing { OnErr result (self.new.bytes.items ≡ self.old.bytes.items) }
        ensures failed { OnErr result (Rose (S.faults source.old) (S.faults source.new)) }
        ensures no_fault { OnOk result (S.faults source.new ≡ S.faults source.old) }
        ensures promised { S.never_fails source.old → IsOk result }
    {
        let mut piece = [0; READ_BYTES];
        let count = source.read(&mut piece)?;
        let extended = self.bytes.extend_from_slice(&piece[..count]);
        prove!(extended.is_ok());
        Ok(count)
    }

    /// Looks for the line feed that ends the next line, and reads until one is there, or none can come.
    pub fn search<S: Source>(&mut self, source: &mut S) -> Search
        requires room { 4198400 ≤ vec_capacity self.old.bytes }
        requires low { self.old.start ≤ MOST_FEED_BYTES }
        requires few { length self.old.bytes.items ≤ 4198400 }
        ensures start { self.new.start ≡ self.old.start }
        ensures found { FoundSo self.new.bytes.items self.new.start result }
        ensures goes_on { GoesOn (S.left source.old) (S.left source.new) self.old.bytes.items self.new.bytes.items
            (S.faults source.old) (S.faults source.new) (S.later source.old source.new) (S.never_fails source.old → S.never_fails source.new) }
        ensures at_end { is_drained result ≡ true → IsAtEnd (S.left source.new) }
        ensures no_read { ((1 < length (pieces (drop self.old.start (looked_at self.old.bytes.items)))) ⊎ (MOST_FEED_BYTES < length self.old.bytes.items)) →
            (self.new.bytes.items ≡ self.old.bytes.items) × (source.new ≡ source.old) }
        ensures few { length self.new.bytes.items ≤ 4198400 }
        ensures failed { is_failed result ≡ true → Rose (S.faults source.old) (S.faults source.new) }
        ensures no_fault { is_failed result ≡ false → S.faults source.new ≡ S.faults source.old }
        ensures promised { S.never_fails source.old → is_failed result ≡ true → ⊥ }
    {
        let mut from = self.start;
        'reads: loop {
            if let Some(end) = self.line_feed_from(from) {
                return Search::LineFeed(end);
            }
            if self.bytes.len() > MOST_FEED_BYTES {
                return Search::TooLarge;
            }
            from = self.bytes.len();
            match self.read_more(source) {
                Ok(0) => return Search::Drained,
                Ok(_) => {}
                Err(ReadFailed) => return Search::Failed,
            }
        }
    }

    /// The line that ends at this index.
    pub fn line(&self, end: usize) -> &[u8]
        requires after { self.now.start ≤ end }
        requires within { end < length (looked_at self.now.bytes.items) }
        ensures { result.now ≡ take (end - self.now.start) (drop self.now.start (looked_at self.now.bytes.items)) }
    {
        let looked = self.looked_at();
        &looked[self.start..end]
    }

    /// What stands from the start on.
    pub fn rest(&self) -> &[u8]
        ensures { result.now ≡ drop self.now.start self.now.bytes.items }
    {
        &self.bytes[self.start..]
    }

    /// Passes over the line that ends before the line feed at this index.
    pub fn pass(&mut self, end: usize)
        requires { end < length (looked_at self.old.bytes.items) }
        ensures bytes { self.new.bytes.items ≡ self.old.bytes.items }
        ensures start { self.new.start ≡ end + 1 }
    {
        self.start = end + 1;
    }
}
