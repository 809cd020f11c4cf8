//! The lines of a feed that are in hand, gathered with no turn held.

ghost use Rattle.std.specs.Prelude.{◌≡◌, ◌≢◌, ◌⊎◌, ◌+◌, ◌<◌, ◌++◌, ◌∷◌, [], List, length, Some, IsSome, OnOk, OnErr, IfNone, Option};
ghost use Rattle.scan_types.specs.declared.rule.VoidRule.{VoidRule};
ghost use Rattle.board_definitions.specs.declared.event.FeedStop.TheVariants.{ReadFault};
ghost use Rattle.feed_definitions.specs.declared.accepted.Accepted.{Accepted as AcceptedLine};
ghost use Rattle.feed_definitions.specs.declared.header.Header.{Header};
ghost use Rattle.feed_definitions.specs.Lines.{ended_lines};
ghost use Rattle.feed_definitions.specs.Feed.{accepted_in};
ghost use Rattle.desk_definitions.specs.Ends.{refused_in};
ghost use Rattle.feed_bodies.specs.Bodies.{ReadsOn};
ghost use Rattle.feed_workers.specs.Runs.{IsGathered, IsSomewhereIn, Gathers};

use board_definitions::FeedStop;
use desk_io::Source;
use feed_bodies::stop_of;
use feed_definitions::{Accepted, Refusals, Step};
use feed_lines::FeedReader;
use scan_types::WantOfMemory;

/// The most lines that one turn adds.
pub(crate) const MOST_IN_HAND: usize = 64;

/// Keeps what a step tells: an accepted line is in hand, and a refused one is kept. If no memory is left, both are as before.
fn keep_step(
    lines: &mut Vec<Accepted>,
    refusals: &mut Refusals,
    step: &Step,
) -> Result<(), WantOfMemory>
    ensures gathered { OnOk result (lines.new.items ≡ lines.old.items ++ accepted_in (step.now ∷ [])) }
    ensures kept { OnOk result (refusals.new ≡ refusals.old ++ refused_in (step.now ∷ [])) }
    ensures unchanged { OnErr result (lines.new.items ≡ lines.old.items) }
    ensures kept_before { OnErr result (refusals.new ≡ refusals.old) }
{
    match step {
        Step::Line(line) => {
            lines.push(*line)?;
            Ok(())
        }
        Step::Refused(refusal) => {
            refusals.push(*refusal)?;
            Ok(())
        }
        Step::Header(_)
        | Step::BadHeader(_)
        | Step::Skipped
        | Step::End
        | Step::Cut
        | Step::ReadFault => Ok(()),
    }
}

/// Takes the next step of the feed, and returns how the feed stopped, if it did.
fn take_next<S: Source + Drop>(
    lines: &mut Vec<Accepted>,
    refusals: &mut Refusals,
    feed: u8,
    reader: &mut FeedReader<S>,
) -> Option<FeedStop>
    requires between { IsSomewhereIn S.left feed lines.old.items refusals.old reader.old }
    ensures step { (rules : List (Option VoidRule)) (header : Header) (put : List AcceptedLine) →
        IsGathered S.left feed rules header put lines.old.items refusals.old reader.old →
        Gathers S.left feed rules header S.faults put lines.new.items refusals.new reader.new result }
    ensures counted { IfNone result (reader.new.answers ≡ reader.old.answers + 1) }
    ensures promised { S.never_fails reader.old.source → result ≢ Some ReadFault }
    ensures no_fault { result ≢ Some ReadFault → S.faults reader.new.source ≡ S.faults reader.old.source }
    ensures no_read { reader.old.answers < length (ended_lines reader.old.taken) → S.faults reader.new.source ≡ S.faults reader.old.source }
    ensures stopped { IsSome result → lines.new.items ≡ lines.old.items }
    ensures goes_on { ReadsOn S.left S.faults S.later S.never_fails reader.old reader.new }
{
    match reader.next() {
        Ok(step) => match stop_of(&step) {
            Some(stop) => Some(stop),
            None => match keep_step(lines, refusals, &step) {
                Ok(()) => None,
                Err(_) => Some(FeedStop::NoMemory),
            },
        },
        Err(_) => Some(FeedStop::NoMemory),
    }
}

/// Gathers what is in hand: the next step, for which it may read, and then further ones for which no read is made, as long as fewer than
/// `MOST_IN_HAND` lines are gathered. Returns how the feed stopped, if it did.
pub(crate) fn gather<S: Source + Drop>(
    lines: &mut Vec<Accepted>,
    refusals: &mut Refusals,
    feed: u8,
    reader: &mut FeedReader<S>,
) -> Option<FeedStop>
    requires between { IsSomewhereIn S.left feed lines.old.items refusals.old reader.old }
    ensures gathered { (rules : List (Option VoidRule)) (header : Header) (put : List AcceptedLine) →
        IsGathered S.left feed rules header put lines.old.items refusals.old reader.old →
        Gathers S.left feed rules header S.faults put lines.new.items refusals.new reader.new result }
    ensures counted { IfNone result (reader.old.answers < reader.new.answers) }
    ensures promised { S.never_fails reader.old.source → result ≢ Some ReadFault }
    ensures no_fault { result ≢ Some ReadFault → S.faults reader.new.source ≡ S.faults reader.old.source }
    ensures before_a_read { result ≡ Some ReadFault → (lines.new.items ≡ lines.old.items) ⊎ (S.faults reader.new.source ≡ S.faults reader.old.source) }
    ensures goes_on { ReadsOn S.left S.faults S.later S.never_fails reader.old reader.new }
{
    loop {
        if let Some(stop) = take_next(lines, refusals, feed, reader) {
            return Some(stop);
        }
        if lines.len() >= MOST_IN_HAND || !reader.has_line() {
            return None;
        }
    }
}
