//! The bodies of the feeds, read one after another onto the board.
ghost use Rattle.std.specs.Prelude.{ℕ, List, Option, All, ◌≡◌, ◌≢◌, ◌+◌, ◌<◌, ◌≤◌, length, vec_capacity, None, [], MatchBool, ⊤};
ghost use Rattle.std.specs.VecDeque.{deque_len};
ghost use Rattle.scan_types.specs.declared.limits.TheConstants.{MOST_FEEDS};
ghost use Rattle.board_definitions.specs.declared.event.FeedStop.TheVariants as stops;
ghost use Rattle.report_definitions.specs.Stops.{is_reported};
ghost use Rattle.feed_bodies.specs.Bodies.{IsReadyFor};
ghost use Rattle.desk_opening.specs.Headers.{IsHeaderRead, AreHeadersRead};
ghost use Rattle.desk_once.specs.Counts.{AreCounted, AreFresh};
ghost use Rattle.desk_once.specs.Bodies.{AreCutAt, AreReadSoFar, IsNextRead, headers_of};

use board_definitions::{FeedStop, Law};
use desk_definitions::FeedEnd;
use desk_io::Source;
use desk_opening::Begun;
use feed_bodies::read_body;
use quote_board::Board;
use std::alloc::Global;
use std::collections::VecDeque;

// Whether a feed was read to its end, to a limit of size, or to a fault of reading.
fn is_reported(stop: FeedStop) -> bool
    ensures { result ≡ is_reported stop }
{
    matches!(stop, FeedStop::End | FeedStop::Cut | FeedStop::ReadFault)
}

// Reads the body of the next feed, and returns whether it was read whole.
fn read_next<W: Law, S: Source + Drop>(
    alloc: Global,
    board: &mut Board<W>,
    next: Begun<S>,
    ends: &mut Vec<FeedEnd<S>>,
) -> bool
    requires number { length ends.old.items < MOST_FEEDS }
    requires room { length ends.old.items < vec_capacity ends.old }
    requires board { IsReadyFor board.old (length ends.old.items) next.header }
    requires reader { IsHeaderRead S.left None (length ends.old.items) next.header next.reader }
    ensures next { (told : ℕ → Option (List ℕ)) → IsHeaderRead S.left (told (length ends.old.items)) (length ends.old.items) next.header next.reader →
        IsNextRead S.left S.faults told next.header ends.old.items ends.new.items board.old board.new result }
    ensures promised { All (λ end. end.stop ≢ stops.ReadFault) ends.old.items → S.never_fails next.reader.source → All (λ end. end.stop ≢ stops.ReadFault) ends.new.items }
    ensures counted { AreCounted S.faults ends.old.items → S.faults next.reader.source ≡ 0 → AreCounted S.faults ends.new.items }
    ensures room { vec_capacity ends.old ≤ vec_capacity ends.new }
{
    let Begun { header, reader } = next;
    let end = read_body(alloc, board, ends.len() as u8, header, reader);
    let whole = is_reported(end.stop);
    let pushed = ends.push(end);
    prove!(pushed.is_ok());
    whole
}

// Reads the bodies of the feeds, one after another, up to the first for which no memory is left, and returns whether there was memory
// for all.
pub(crate) fn read_while<W: Law, S: Source + Drop>(
    alloc: Global,
    board: &mut Board<W>,
    begun: &mut VecDeque<Begun<S>>,
    ends: &mut Vec<FeedEnd<S>>,
) -> bool
    requires few { length ends.old.items + deque_len begun.old ≤ MOST_FEEDS }
    requires room { length ends.old.items + deque_len begun.old ≤ vec_capacity ends.old }
    requires so_far { AreReadSoFar S.left S.faults (λ _. None) board.old.fixed.rules ends.old.items begun.old.items board.old.history }
    ensures bodies { (told : ℕ → Option (List ℕ)) → AreReadSoFar S.left S.faults told board.old.fixed.rules ends.old.items begun.old.items board.old.history →
        MatchBool result (AreReadSoFar S.left S.faults told board.old.fixed.rules ends.new.items [] board.new.history)
        (AreCutAt S.left S.faults told ends.new.items begun.new.items board.new.history) }
    ensures promised { All (λ end. end.stop ≢ stops.ReadFault) ends.old.items → All (λ feed. S.never_fails feed.reader.source) begun.old.items →
        All (λ end. end.stop ≢ stops.ReadFault) ends.new.items }
    ensures counted { AreCounted S.faults ends.old.items → AreFresh S.faults begun.old.items → AreCounted S.faults ends.new.items }
    ensures all { MatchBool result (begun.new.items ≡ []) ⊤ }
    ensures fixed { board.new.fixed ≡ board.old.fixed }
    ensures headers { headers_of ends.new.items begun.new.items ≡ headers_of ends.old.items begun.old.items }
    ensures few { length ends.new.items + deque_len begun.new ≡ length ends.old.items + deque_len begun.old }
    ensures room { vec_capacity ends.old ≤ vec_capacity ends.new }
{
    while let Some(next) = begun.pop_front() {
        if !read_next(alloc, board, next, ends) {
            return false;
        }
    }
    true
}
