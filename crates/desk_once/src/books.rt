//! A run over feeds whose headers were read, and are of different books.
ghost use Rattle.std.specs.Prelude.{ℕ, List, Option, None, [], ◌≡◌, ◌≢◌, ◌≤◌, length, map, All, AllPairs};
ghost use Rattle.scan_types.specs.declared.limits.TheConstants.{MOST_FEEDS, MOST_PIVOTS};
ghost use Rattle.desk_opening.specs.Headers.{AreHeadersRead};
ghost use Rattle.desk_opening.specs.Twins.{books_of};
ghost use Rattle.desk_definitions.specs.declared.status.TheConstants.{NOT_READ, WANT_OF_MEMORY};
ghost use Rattle.desk_definitions.specs.Seen.{sink_seen};
ghost use Rattle.desk_once.specs.Counts.{AreCounted, AreFresh};
ghost use Rattle.desk_once.specs.Outcomes.{RunsSo};

use crate::board::begin_board;
use crate::bodies::read_while;
use crate::finish::finish;
use desk_definitions::DeskEnd;
use desk_definitions::status::WANT_OF_MEMORY;
use desk_io::{Sink, Source};
use desk_opening::Begun;
use feed_definitions::Header;
use std::alloc::Global;
use std::collections::VecDeque;

// What is handed out if no memory is left before a body is on a board.
pub(crate) fn without_memory<S: Source + Drop>(alloc: Global) -> DeskEnd<S>
    ensures status { result.status ≡ WANT_OF_MEMORY }
    ensures feeds { result.feeds.items ≡ [] }
    ensures history { result.history.items ≡ [] }
{
    DeskEnd {
        status: WANT_OF_MEMORY,
        history: Vec::new(alloc),
        feeds: Vec::new(alloc),
    }
}

// Reads the bodies of the feeds onto a board, judges each match that is due, and writes the report.
pub(crate) fn with_books<S: Source + Drop, K: Sink>(
    alloc: Global,
    pivots: u32,
    headers: &[Header],
    mut begun: VecDeque<Begun<S>>,
    sink: &mut K,
) -> DeskEnd<S>
    requires least_pivots { 1 ≤ pivots }
    requires most_pivots { pivots ≤ MOST_PIVOTS }
    requires some { 1 ≤ length begun.items }
    requires few { length begun.items ≤ MOST_FEEDS }
    requires headers { headers.now ≡ map (λ feed. feed.header) begun.items }
    requires read { AreHeadersRead S.left (λ _. None) 0 begun.items }
    requires different { AllPairs (λ book other. book ≢ other) (books_of headers.now) }
    ensures course { (told : ℕ → Option (List ℕ)) → AreHeadersRead S.left told 0 begun.items →
        RunsSo S.left S.faults told (length begun.items) pivots (record { ends = result.feeds.items; history = result.history.items }) result.status
        (sink_seen K.written K.faults sink.old sink.new) }
    ensures promised { All (λ feed. S.never_fails feed.reader.source) begun.items → result.status ≢ NOT_READ }
    ensures counted { AreFresh S.faults begun.items → AreCounted S.faults result.feeds.items }
{
    let Ok(mut board) = begin_board(alloc, headers, pivots) else {
        return without_memory(alloc);
    };
    let Ok(mut ends) = Vec::with_capacity(alloc, begun.len()) else {
        return without_memory(alloc);
    };
    if !read_while(alloc, &mut board, &mut begun, &mut ends) {
        return DeskEnd {
            status: WANT_OF_MEMORY,
            history: board.into_history(),
            feeds: ends,
        };
    }
    finish(alloc, pivots, board, ends, sink)
}
