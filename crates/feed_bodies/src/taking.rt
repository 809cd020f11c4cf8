//! What one step of a feed adds to the board, or to the refused lines.

ghost use Rattle.std.specs.Prelude.{ℕ, ◌≡◌, ◌<◌, ◌++◌, ◌∷◌, [], OnOk, OnErr};
ghost use Rattle.scan_types.specs.declared.limits.TheConstants.{MOST_FEEDS};
ghost use Rattle.feed_definitions.specs.declared.accepted.Accepted.{Accepted as AcceptedLine};
ghost use Rattle.feed_definitions.specs.declared.step.Step.TheVariants as answer;
ghost use Rattle.feed_definitions.specs.Feed.{accepted_in};
ghost use Rattle.desk_definitions.specs.Ends.{refused_in};
ghost use Rattle.desk_definitions.specs.Lines.{entry_of, entries_of};
ghost use Rattle.feed_board_laws.specs.Bodies.{lines_in, HoldsLines, IsAcceptedAfter};
ghost use Rattle.feed_bodies.specs.Bodies.{stop_of, with_entries};

use board_definitions::{FeedStop, Key, Law};
use feed_definitions::{Accepted, Change, Refusals, Step};
use quote_board::Board;
use scan_types::WantOfMemory;

/// How the feed stops at the step, if it does.
pub fn stop_of(step: &Step) -> Option<FeedStop>
    ensures { result ≡ stop_of step.now }
{
    match step {
        Step::End => Some(FeedStop::End),
        Step::Cut => Some(FeedStop::Cut),
        Step::ReadFault => Some(FeedStop::ReadFault),
        Step::Header(_) | Step::BadHeader(_) | Step::Line(_) | Step::Refused(_) | Step::Skipped =>
            None,
    }
}

/// Adds the entry of an accepted line of the feed.
pub fn add_line<W: Law>(board: &mut Board<W>, feed: u8, line: Accepted) -> Result<(), WantOfMemory>
    requires number { feed < MOST_FEEDS }
    requires holds { HoldsLines board.old.fixed.rules board.old.history feed (lines_in board.old.history feed) }
    requires accepted { IsAcceptedAfter (lines_in board.old.history feed) line }
    ensures added { OnOk result (board.new ≡ with_entries board.old (entry_of feed line ∷ [])) }
    ensures unchanged { OnErr result (board.new ≡ board.old) }
{
    let key = Key {
        feed,
        match_name: line.match_name,
        selection: line.selection,
    };
    match line.change {
        Change::Quote(odds, limit) => board.quote(feed + 1, key, odds, limit, line.line),
        Change::Withdraw => board.withdraw(feed + 1, key, line.line),
    }
}

/// Takes one step of the feed: an accepted line becomes an entry of the board, and a refused one is kept. If no memory is left, both
/// are as before.
pub(crate) fn take_step<W: Law>(
    board: &mut Board<W>,
    refusals: &mut Refusals,
    feed: u8,
    step: &Step,
) -> Result<(), WantOfMemory>
    requires number { feed < MOST_FEEDS }
    requires holds { HoldsLines board.old.fixed.rules board.old.history feed (lines_in board.old.history feed) }
    requires accepted { (line : AcceptedLine) → step.now ≡ answer.Line line → IsAcceptedAfter (lines_in board.old.history feed) line }
    ensures added { OnOk result (board.new ≡ with_entries board.old (entries_of feed (accepted_in (step.now ∷ [])))) }
    ensures kept { OnOk result (refusals.new ≡ refusals.old ++ refused_in (step.now ∷ [])) }
    ensures unchanged { OnErr result (board.new ≡ board.old) }
    ensures kept_before { OnErr result (refusals.new ≡ refusals.old) }
{
    match step {
        Step::Line(line) => add_line(board, feed, *line),
        Step::Refused(refusal) => {
            refusals.push(*refusal)?;
            Ok(())
        }
        Step::Header(_)
        | Step::BadHeader(_)
        | Step::Skipped
        | Step::End
        | Step::Cut
        | Step::ReadFault => Ok(()),
    }
}
