//! The answer to the next line.
ghost use Rattle.std.specs.Prelude.{◌≡◌, ◌+◌, ◌<◌, ◌≤◌, List, [], ◌∷◌, ◌++◌, true, false, length, take};
ghost use Rattle.std.specs.Str.{bytes_eq};
ghost use Rattle.indexmap.specs.IndexMap.{get as row_at, index_map_len, spare};
ghost use Rattle.scan_types.specs.declared.limits.TheConstants.{MOST_LINES};
ghost use Rattle.feed_definitions.specs.declared.step.Step.{Step as AnyStep};
ghost use Rattle.feed_definitions.specs.declared.step.Step.TheVariants as step;
ghost use Rattle.feed_definitions.specs.Feed.{accepted_in};
ghost use Rattle.feed_definitions.specs.Answers.{is_open, next_answer, ends_feed};
ghost use Rattle.feed_lines.specs.Rows.{IsStanding};
ghost use Rattle.feed_lines.specs.Reader.{StandsSo, IsEndedNext, IsLastNext, IsAnswer, IsReading, steps_so, drained_by, failed_by, is_read_fault, is_of_line, IsNumbered, IsInRange, IsWhole};

use crate::line_step::{first_step, line_step};
use crate::next_line::NextLine;
use crate::standing::Standing;
use crate::taken::Taken;
use feed_definitions::Step;

/// The answer to the line after so many lines, and what stands after it.
fn line_answer(line: &[u8], lines: u32, standing: &mut Standing) -> Step
    requires room { 0 < spare standing.old.rows }
    requires few { lines < MOST_LINES }
    ensures in_range { IsInRange result }
    ensures step { (before : List AnyStep) → length before ≡ lines → IsStanding (row_at bytes_eq standing.old.rows) (index_map_len standing.old.rows) (accepted_in before) →
        result ≡ next_answer before line.now }
    ensures standing { (before : List AnyStep) → length before ≡ lines → IsStanding (row_at bytes_eq standing.old.rows) (index_map_len standing.old.rows) (accepted_in before) →
        IsStanding (row_at bytes_eq standing.new.rows) (index_map_len standing.new.rows) (accepted_in (before ++ result ∷ [])) }
{
    if lines == 0 {
        first_step(line)
    } else {
        line_step(line, lines + 1, standing)
    }
}

/// The answer to the line that ends before the line feed at this index. The next line starts behind it.
fn ended_answer(end: usize, lines: u32, taken: &mut Taken, standing: &mut Standing) -> Step
    requires room { 0 < spare standing.old.rows }
    requires opened { is_open (take lines (steps_so false taken.old.bytes.items)) ≡ true }
    requires standing { IsStanding (row_at bytes_eq standing.old.rows) (index_map_len standing.old.rows) (accepted_in (take lines (steps_so false taken.old.bytes.items))) }
    requires stands { IsEndedNext taken.old.bytes.items taken.old.start lines end }
    ensures answer { IsAnswer false taken.old.bytes.items lines result }
    ensures reading { ends_feed result ≡ false →
        IsReading taken.old.bytes.items taken.new.start (lines + 1) false (row_at bytes_eq standing.new.rows) (index_map_len standing.new.rows) }
    ensures bytes { taken.new.bytes.items ≡ taken.old.bytes.items }
    ensures no_fault { is_read_fault result ≡ false }
    ensures of_line { is_of_line result ≡ true }
    ensures numbered { IsNumbered (lines + 1) result }
    ensures in_range { IsInRange result }
    ensures whole { ends_feed result ≡ true → IsWhole taken.old.bytes.items }
    ensures few { index_map_len standing.new.rows ≤ 256 }
{
    let line = taken.line(end);
    let step = line_answer(line, lines, standing);
    taken.pass(end);
    step
}

/// The answer to the last line, which no line feed ends.
fn last_answer(lines: u32, taken: &Taken, standing: &mut Standing) -> Step
    requires room { 0 < spare standing.old.rows }
    requires opened { is_open (take lines (steps_so true taken.now.bytes.items)) ≡ true }
    requires standing { IsStanding (row_at bytes_eq standing.old.rows) (index_map_len standing.old.rows) (accepted_in (take lines (steps_so true taken.now.bytes.items))) }
    requires stands { IsLastNext taken.now.bytes.items taken.now.start lines }
    ensures answer { IsAnswer true taken.now.bytes.items lines result }
    ensures reading { ends_feed result ≡ false →
        IsReading taken.now.bytes.items taken.now.start (lines + 1) true (row_at bytes_eq standing.new.rows) (index_map_len standing.new.rows) }
    ensures no_fault { is_read_fault result ≡ false }
    ensures of_line { is_of_line result ≡ true }
    ensures numbered { IsNumbered (lines + 1) result }
    ensures in_range { IsInRange result }
    ensures few { index_map_len standing.new.rows ≤ 256 }
{
    let line = taken.rest();
    line_answer(line, lines, standing)
}

/// The answer after so many lines, by how the next line stands.
pub fn answer(found: NextLine, lines: u32, taken: &mut Taken, standing: &mut Standing) -> Step
    requires room { 0 < spare standing.old.rows }
    requires opened { is_open (take lines (steps_so (drained_by found) taken.old.bytes.items)) ≡ true }
    requires standing { IsStanding (row_at bytes_eq standing.old.rows) (index_map_len standing.old.rows) (accepted_in (take lines (steps_so (drained_by found) taken.old.bytes.items))) }
    requires stands { StandsSo taken.old.bytes.items taken.old.start lines found }
    ensures answer { IsAnswer (drained_by found) taken.old.bytes.items lines result }
    ensures reading { ends_feed result ≡ false →
        IsReading taken.old.bytes.items taken.new.start (lines + 1) (drained_by found) (row_at bytes_eq standing.new.rows) (index_map_len standing.new.rows) }
    ensures bytes { taken.new.bytes.items ≡ taken.old.bytes.items }
    ensures fault { is_read_fault result ≡ failed_by found }
    ensures end { result ≡ step.End → drained_by found ≡ true }
    ensures numbered { IsNumbered (lines + 1) result }
    ensures in_range { IsInRange result }
    ensures whole { ends_feed result ≡ true → is_read_fault result ≡ false → drained_by found ≡ false → IsWhole taken.old.bytes.items }
    ensures few { index_map_len standing.new.rows ≤ 256 }
{
    match found {
        NextLine::Ended(end) => ended_answer(end, lines, taken, standing),
        NextLine::Last => last_answer(lines, taken, standing),
        NextLine::Whole => first_step(taken.looked_at()),
        NextLine::Cut => Step::Cut,
        NextLine::End => Step::End,
        NextLine::ReadFault => Step::ReadFault,
    }
}
