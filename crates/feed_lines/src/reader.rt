//! The reader of one feed.
ghost use Rattle.std.specs.Prelude.{◌≡◌, ◌+◌, ◌<◌, ◌≤◌, [], ◌∷◌, ◌++◌, not, true, false, if◌then◌else◌, Some, length, take, slice_get, vec_capacity, IfOk, OnOk, OnErr};
ghost use Rattle.std.specs.Io.KnownBytes.{IsAtEnd};
ghost use Rattle.scan_types.specs.declared.limits.TheConstants.{MOST_LINES};
ghost use Rattle.desk_io.specs.Faults.{Rose};
ghost use Rattle.feed_definitions.specs.declared.step.Step.TheVariants as any;
ghost use Rattle.feed_definitions.specs.Lines.{ended_lines};
ghost use Rattle.feed_definitions.specs.Feed.{accepted_in};
ghost use Rattle.feed_definitions.specs.Answers.{ends_feed};
ghost use Rattle.feed_lines.specs.Taking.{GoesOn, looked_at};
ghost use Rattle.feed_lines.specs.Reader.{IsAtLine, IsReadOut, StandsSo, its_steps, answered, is_read_fault, is_of_line, drained_by, failed_by, IsNumbered, IsInRange, IsWhole};

use crate::answer::answer;
use crate::next_line::NextLine;
use crate::reading::next_line;
use crate::standing::Standing;
use crate::taken::Taken;
use desk_io::Source;
use feed_definitions::Step;
use scan_types::WantOfMemory;
use std::alloc::Global;
use std::marker::Model;

/// How the next line stands. Once a read has answered that no bytes are left, none is made.
fn found_next<S: Source>(taken: &mut Taken, source: &mut S, lines: u32, drained: bool) -> NextLine
    requires room { 4198400 ≤ vec_capacity taken.old.bytes }
    requires few_lines { lines ≤ MOST_LINES }
    requires at_line { drained ≡ false → IsAtLine taken.old.bytes.items taken.old.start lines }
    requires read_out { drained ≡ true → IsReadOut taken.old.bytes.items lines }
    requires few { length taken.old.bytes.items ≤ 4198400 }
    ensures start { taken.new.start ≡ taken.old.start }
    ensures stands { StandsSo taken.new.bytes.items taken.new.start lines result }
    ensures goes_on { GoesOn (S.left source.old) (S.left source.new) taken.old.bytes.items taken.new.bytes.items
        (S.faults source.old) (S.faults source.new) (S.later source.old source.new) (S.never_fails source.old → S.never_fails source.new) }
    ensures at_end { drained ≡ false → drained_by result ≡ true → IsAtEnd (S.left source.new) }
    ensures kept { drained ≡ true → (drained_by result ≡ true) × (taken.new.bytes.items ≡ taken.old.bytes.items) × (source.new ≡ source.old) }
    ensures no_read { lines < length (ended_lines taken.old.bytes.items) → (taken.new.bytes.items ≡ taken.old.bytes.items) × (source.new ≡ source.old) }
    ensures few { length taken.new.bytes.items ≤ 4198400 }
    ensures failed { failed_by result ≡ true → Rose (S.faults source.old) (S.faults source.new) }
    ensures no_fault { failed_by result ≡ false → S.faults source.new ≡ S.faults source.old }
    ensures promised { S.never_fails source.old → failed_by result ≡ true → ⊥ }
{
    if drained {
        return NextLine::End;
    }
    next_line(taken, source, lines)
}

/// Whether a read has answered that no bytes are left.
fn is_drained(found: &NextLine) -> bool
    ensures { result ≡ drained_by found.now }
{
    matches!(found, NextLine::Last | NextLine::End)
}

/// Whether nothing follows the step.
fn ends_feed(step: &Step) -> bool
    ensures { result ≡ ends_feed step.now }
{
    matches!(
        step,
        Step::BadHeader(_) | Step::End | Step::Cut | Step::ReadFault
    )
}

/// Whether the step is for a line.
fn is_of_line(step: &Step) -> bool
    ensures { result ≡ is_of_line step.now }
{
    !matches!(step, Step::End | Step::Cut | Step::ReadFault)
}

/// Reads a feed from a source, one step after another.
///
/// It keeps the bytes that it took, so that its steps are those of the text whatever pieces the source gives it in.
#[derive(Drop)]
pub struct FeedReader<S: Drop> {
    source: S,
    feed: u8,
    taken: Taken,
    standing: Standing,
    answers: u32,
    drained: bool,
    ended: bool,
    over: bool,
}

impl<S: Drop> Model for FeedReader<S> {
    ghost use Rattle.std.specs.Str.{bytes_eq};
    ghost use Rattle.indexmap.specs.IndexMap.{get as row_at, index_map_len};
    ghost use Rattle.feed_lines.specs.Reader.{ReaderView, IsReader};

    ghost Value = { ReaderView S };

    ghost view = { λ r. record { feed = r.feed; taken = r.taken.bytes.items; answers = r.answers; drained = r.drained; ended = r.ended; over = r.over; source = r.source } };

    ghost invariant = { λ r. IsReader r.taken.bytes.items r.taken.start r.answers r.drained r.ended r.over (row_at bytes_eq r.standing.rows) (index_map_len r.standing.rows) };
}

impl<S: Source + Drop> FeedReader<S> {
    /// A reader of this source as feed number `feed`. Takes no memory and no byte.
    pub fn new(alloc: Global, source: S, feed: u8) -> FeedReader<S>
        ensures { result ≡ record { feed = feed; taken = []; answers = 0; drained = false; ended = false; over = false; source = source } }
    {
        FeedReader {
            source,
            feed,
            taken: Taken::new(alloc),
            standing: Standing::new(alloc),
            answers: 0,
            drained: false,
            ended: false,
            over: false,
        }
    }

    /// Whether nothing follows the last step.
    pub fn over(&self) -> bool
        ensures { result ≡ self.now.over }
    {
        self.over
    }

    /// Whether the next line is in hand whole, with its line feed, so that `next` makes no read. Looks at the bytes of that line.
    pub fn has_line(&self) -> bool
        ensures no_read { result ≡ true → self.now.answers < length (ended_lines self.now.taken) }
        ensures exact { self.now.over ≡ false → self.now.drained ≡ false → result ≡ false → length (ended_lines (looked_at self.now.taken)) ≡ self.now.answers }
    {
        if self.over {
            return false;
        }
        if self.drained {
            return false;
        }
        self.taken.has_line()
    }

    /// How many lines were answered so far, the header included.
    pub fn lines(&self) -> u32
        ensures { result + (if self.now.ended then 1 else 0) ≡ self.now.answers }
    {
        if self.ended {
            self.answers - 1
        } else {
            self.answers
        }
    }

    /// Gives the source back.
    pub fn into_source(self) -> S
        ensures { result ≡ self.source }
    {
        self.source
    }

    /// The next step of the feed. If no memory is left, the reader is as before, and no byte was taken.
    ///
    /// The first call makes room for all bytes that the reader may take. A call reads until it is clear how the next line stands, and
    /// makes no read if more line feeds were taken than steps were returned.
    pub fn next(&mut self) -> Result<Step, WantOfMemory>
        requires { self.old.over ≡ false }
        ensures step { IfOk result (λ step. slice_get (its_steps self.new) self.old.answers ≡ Some step) }
        ensures earlier { OnOk result (take self.old.answers (its_steps self.new) ≡ answered self.old) }
        ensures answered { IfOk result (λ step. answered self.new ≡ answered self.old ++ step ∷ []) }
        ensures last { IfOk result (λ step. ends_feed step ≡ true → its_steps self.new ≡ answered self.new) }
        ensures counted { OnOk result (self.new.answers ≡ self.old.answers + 1) }
        ensures over { IfOk result (λ step. self.new.over ≡ ends_feed step) }
        ensures ended { IfOk result (λ step. self.new.ended ≡ not (is_of_line step)) }
        ensures feed { OnOk result (self.new.feed ≡ self.old.feed) }
        ensures goes_on { OnOk result (GoesOn (S.left self.old.source) (S.left self.new.source) self.old.taken self.new.taken
            (S.faults self.old.source) (S.faults self.new.source) (S.later self.old.source self.new.source) (S.never_fails self.old.source → S.never_fails self.new.source)) }
        ensures drained { OnOk result (self.old.drained ≡ false → self.new.drained ≡ true → IsAtEnd (S.left self.new.source)) }
        ensures drained_stays { OnOk result (self.old.drained ≡ true →
            (self.new.drained ≡ true) × (self.new.taken ≡ self.old.taken) × (self.new.source ≡ self.old.source)) }
        ensures end { IfOk result (λ step. step ≡ any.End → self.new.drained ≡ true) }
        ensures whole { IfOk result (λ step. ends_feed step ≡ true → is_read_fault step ≡ false → self.new.drained ≡ false → IsWhole self.new.taken) }
        ensures numbered { IfOk result (IsNumbered (self.old.answers + 1)) }
        ensures in_range { IfOk result IsInRange }
        ensures no_read { OnOk result (self.old.answers < length (ended_lines self.old.taken) → (self.new.taken ≡ self.old.taken) × (self.new.source ≡ self.old.source)) }
        ensures fault { IfOk result (λ step. is_read_fault step ≡ true → Rose (S.faults self.old.source) (S.faults self.new.source)) }
        ensures no_fault { IfOk result (λ step. is_read_fault step ≡ false → S.faults self.new.source ≡ S.faults self.old.source) }
        ensures promised { S.never_fails self.old.source → IfOk result (λ step. is_read_fault step ≡ false) }
        ensures bound { OnOk result (length self.new.taken ≤ 4198400) }
        ensures memory { OnErr result (self.new ≡ self.old) }
    {
        self.standing.reserve()?;
        self.taken.reserve()?;
        let found = found_next(
            &mut self.taken,
            &mut self.source,
            self.answers,
            self.drained,
        );
        let drained = is_drained(&found);
        let step = answer(found, self.answers, &mut self.taken, &mut self.standing);
        self.answers += 1;
        self.drained = drained;
        self.ended = !is_of_line(&step);
        self.over = ends_feed(&step);
        Ok(step)
    }
}
