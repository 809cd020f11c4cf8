//! The lines in the bytes taken, one after another.
ghost use Rattle.std.specs.Prelude.{◌≡◌, ◌<◌, ◌≤◌, true, false, length, drop, vec_capacity};
ghost use Rattle.std.specs.Io.KnownBytes.{IsAtEnd};
ghost use Rattle.scan_types.specs.declared.limits.TheConstants.{MOST_FEED_BYTES, MOST_LINES};
ghost use Rattle.desk_io.specs.Faults.{Rose};
ghost use Rattle.feed_definitions.specs.Lines.{ended_lines};
ghost use Rattle.feed_lines.specs.Taking.{GoesOn, IsOneLine, looked_at};
ghost use Rattle.feed_lines.specs.Reader.{IsAtLine, StandsSo, drained_by, failed_by};

use crate::next_line::NextLine;
use crate::taken::{Search, Taken};
use desk_io::{ReadFailed, Source};
use scan_types::MOST_LINES;

/// What stands behind the last line that is answered.
fn behind_last<S: Source>(taken: &mut Taken, source: &mut S, lines: u32) -> NextLine
    requires room { 4198400 ≤ vec_capacity taken.old.bytes }
    requires full { lines ≡ MOST_LINES }
    requires at_line { IsAtLine taken.old.bytes.items taken.old.start lines }
    requires few { length taken.old.bytes.items ≤ 4198400 }
    ensures start { taken.new.start ≡ taken.old.start }
    ensures stands { StandsSo taken.new.bytes.items taken.old.start lines result }
    ensures goes_on { GoesOn (S.left source.old) (S.left source.new) taken.old.bytes.items taken.new.bytes.items
        (S.faults source.old) (S.faults source.new) (S.later source.old source.new) (S.never_fails source.old → S.never_fails source.new) }
    ensures at_end { drained_by result ≡ true → IsAtEnd (S.left source.new) }
    ensures no_read { lines < length (ended_lines taken.old.bytes.items) → (taken.new.bytes.items ≡ taken.old.bytes.items) × (source.new ≡ source.old) }
    ensures few { length taken.new.bytes.items ≤ 4198400 }
    ensures failed { failed_by result ≡ true → Rose (S.faults source.old) (S.faults source.new) }
    ensures no_fault { failed_by result ≡ false → S.faults source.new ≡ S.faults source.old }
    ensures promised { S.never_fails source.old → failed_by result ≡ true → ⊥ }
{
    if taken.start < taken.bytes.len() {
        return NextLine::Cut;
    }
    match taken.read_more(source) {
        Ok(0) => NextLine::End,
        Ok(_) => NextLine::Cut,
        Err(ReadFailed) => NextLine::ReadFault,
    }
}

/// How the next line stands if it is not ended among the bytes that are looked at, and more bytes follow these.
fn too_large(taken: &Taken, lines: u32) -> NextLine
    requires at_line { IsAtLine taken.now.bytes.items taken.now.start lines }
    requires few_lines { lines < MOST_LINES }
    requires one { IsOneLine (drop taken.now.start (looked_at taken.now.bytes.items)) }
    requires many { MOST_FEED_BYTES < length taken.now.bytes.items }
    ensures stands { StandsSo taken.now.bytes.items taken.now.start lines result }
    ensures not_drained { drained_by result ≡ false }
    ensures not_failed { failed_by result ≡ false }
{
    if lines == 0 {
        NextLine::Whole
    } else {
        NextLine::Cut
    }
}

/// How the next line stands if no line feed follows and no byte is left to be read.
fn drained(taken: &Taken, lines: u32) -> NextLine
    requires at_line { IsAtLine taken.now.bytes.items taken.now.start lines }
    requires few_lines { lines < MOST_LINES }
    requires one { IsOneLine (drop taken.now.start (looked_at taken.now.bytes.items)) }
    requires few { length taken.now.bytes.items ≤ MOST_FEED_BYTES }
    ensures stands { StandsSo taken.now.bytes.items taken.now.start lines result }
    ensures not_failed { failed_by result ≡ false }
{
    if lines == 0 {
        return NextLine::Last;
    }
    if taken.start < taken.bytes.len() {
        return NextLine::Last;
    }
    NextLine::End
}

/// Reads until it is clear how the line after so many lines stands.
pub fn next_line<S: Source>(taken: &mut Taken, source: &mut S, lines: u32) -> NextLine
    requires room { 4198400 ≤ vec_capacity taken.old.bytes }
    requires few_lines { lines ≤ MOST_LINES }
    requires at_line { IsAtLine taken.old.bytes.items taken.old.start lines }
    requires few { length taken.old.bytes.items ≤ 4198400 }
    ensures start { taken.new.start ≡ taken.old.start }
    ensures stands { StandsSo taken.new.bytes.items taken.old.start lines result }
    ensures goes_on { GoesOn (S.left source.old) (S.left source.new) taken.old.bytes.items taken.new.bytes.items
        (S.faults source.old) (S.faults source.new) (S.later source.old source.new) (S.never_fails source.old → S.never_fails source.new) }
    ensures at_end { drained_by result ≡ true → IsAtEnd (S.left source.new) }
    ensures no_read { lines < length (ended_lines taken.old.bytes.items) → (taken.new.bytes.items ≡ taken.old.bytes.items) × (source.new ≡ source.old) }
    ensures few { length taken.new.bytes.items ≤ 4198400 }
    ensures failed { failed_by result ≡ true → Rose (S.faults source.old) (S.faults source.new) }
    ensures no_fault { failed_by result ≡ false → S.faults source.new ≡ S.faults source.old }
    ensures promised { S.never_fails source.old → failed_by result ≡ true → ⊥ }
{
    if lines >= MOST_LINES {
        return behind_last(taken, source, lines);
    }
    match taken.search(source) {
        Search::LineFeed(end) => NextLine::Ended(end),
        Search::TooLarge => too_large(taken, lines),
        Search::Drained => drained(taken, lines),
        Search::Failed => NextLine::ReadFault,
    }
}
