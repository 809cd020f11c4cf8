//! The lines of a feed behind its header, up to the end of the feed or to what stops it before.

ghost use Rattle.std.specs.Prelude.{◌≡◌, ◌≢◌, ◌<◌, ◌+◌, Some, MatchOption, IfNone};
ghost use Rattle.board_definitions.specs.declared.event.FeedStop.TheVariants.{ReadFault};
ghost use Rattle.scan_types.specs.declared.limits.TheConstants.{MOST_FEEDS};
ghost use Rattle.feed_definitions.specs.declared.header.Header.{Header};
ghost use Rattle.quote_board.specs.Views.{BoardView};
ghost use Rattle.feed_bodies.specs.Bodies.{IsBegun, IsReadyFor, IsBetween, IsSomewhere, IsOver, IsBodyRead, ReadsOn};

use crate::taking::{stop_of, take_step};
use board_definitions::{FeedStop, Law};
use desk_definitions::FeedEnd;
use desk_io::Source;
use feed_definitions::{Header as HeaderLine, Refusals};
use feed_lines::FeedReader;
use quote_board::Board;
use std::alloc::Global;

/// Takes the next step of the feed, and returns how the feed stopped, if it did.
fn take_next<W: Law, S: Source + Drop>(
    board: &mut Board<W>,
    refusals: &mut Refusals,
    feed: u8,
    reader: &mut FeedReader<S>,
) -> Option<FeedStop>
    requires number { feed < MOST_FEEDS }
    requires between { IsSomewhere S.left feed board.old refusals.old reader.old }
    ensures stop { (header : Header) (before : BoardView W) → IsBetween S.left feed header before board.old refusals.old reader.old →
        MatchOption result (IsBetween S.left feed header before board.new refusals.new reader.new)
        (λ stop. IsOver S.left S.faults feed header before board.new refusals.new reader.new stop) }
    ensures counted { IfNone result (reader.new.answers ≡ reader.old.answers + 1) }
    ensures promised { S.never_fails reader.old.source → result ≢ Some ReadFault }
    ensures no_fault { result ≢ Some ReadFault → S.faults reader.new.source ≡ S.faults reader.old.source }
    ensures goes_on { ReadsOn S.left S.faults S.later S.never_fails reader.old reader.new }
{
    match reader.next() {
        Ok(step) => match stop_of(&step) {
            Some(stop) => Some(stop),
            None => match take_step(board, refusals, feed, &step) {
                Ok(()) => None,
                Err(_) => Some(FeedStop::NoMemory),
            },
        },
        Err(_) => Some(FeedStop::NoMemory),
    }
}

/// Reads the lines behind the header, and returns those that were refused, and how the feed stopped. Each accepted line becomes an entry
/// of the board.
fn read_lines<W: Law, S: Source + Drop>(
    alloc: Global,
    board: &mut Board<W>,
    feed: u8,
    header: &HeaderLine,
    reader: &mut FeedReader<S>,
) -> (Refusals, FeedStop)
    requires number { feed < MOST_FEEDS }
    requires board { IsReadyFor board.old feed header.now }
    requires reader { IsBegun S.left feed header.now reader.old }
    ensures over { IsOver S.left S.faults feed header.now board.old board.new result.0 reader.new result.1 }
    ensures promised { S.never_fails reader.old.source → result.1 ≢ ReadFault }
    ensures no_fault { result.1 ≢ ReadFault → S.faults reader.new.source ≡ S.faults reader.old.source }
    ensures goes_on { ReadsOn S.left S.faults S.later S.never_fails reader.old reader.new }
{
    let mut refusals = Refusals::new(alloc);
    loop {
        if let Some(stop) = take_next(board, &mut refusals, feed, reader) {
            return (refusals, stop);
        }
    }
}

/// Reads the body of a feed whose header was read, and adds each accepted line to the board, in order, and then the end of the feed.
///
/// If no memory is left, the feed ends there with `NoMemory`: the board has the first of its accepted lines, and the end keeps the first
/// of its refused lines. The source is handed back in the end, with what was not taken of it.
///
/// The feed's number is below `MOST_FEEDS`. Each line costs what the reader and the board take for it.
pub fn read_body<W: Law, S: Source + Drop>(
    alloc: Global,
    board: &mut Board<W>,
    feed: u8,
    header: HeaderLine,
    reader: FeedReader<S>,
) -> FeedEnd<S>
    requires number { feed < MOST_FEEDS }
    requires board { IsReadyFor board.old feed header }
    requires reader { IsBegun S.left feed header reader }
    ensures body { IsBodyRead S.left S.faults S.later S.never_fails feed header reader result board.old board.new }
    ensures promised { S.never_fails reader.source → result.stop ≢ ReadFault }
    ensures no_fault { result.stop ≢ ReadFault → S.faults result.source ≡ S.faults reader.source }
{
    let mut reader = reader;
    let (refusals, stop) = read_lines(alloc, board, feed, &header, &mut reader);
    let lines = reader.lines();
    board.end_feed(feed + 1, feed, stop);
    FeedEnd {
        feed,
        header: Some(header),
        lines,
        refusals,
        stop,
        source: reader.into_source(),
    }
}
