//! A run from the board that has the bodies of all feeds, on.
ghost use Rattle.std.specs.Prelude.{ℕ, List, Option, None, ◌≡◌, ◌≢◌, ◌≤◌, length};
ghost use Rattle.scan_types.specs.declared.limits.TheConstants.{MOST_FEEDS, MOST_PIVOTS};
ghost use Rattle.board_definitions.specs.declared.event.FeedStop.TheVariants as stops;
ghost use Rattle.desk_definitions.specs.declared.status.TheConstants.{NOT_READ};
ghost use Rattle.desk_definitions.specs.Seen.{sink_seen};
ghost use Rattle.desk_definitions.specs.Reads.{FeedRead};
ghost use Rattle.desk_definitions.specs.History.{bodies_of};
ghost use Rattle.desk_definitions.specs.Course.{HaveBodies};
ghost use Rattle.desk_definitions.specs.Causes.{NoneStops};
ghost use Rattle.desk_once.specs.Outcomes.{RunsSo};

use crate::reporting::write_the_report;
use desk_definitions::status::WANT_OF_MEMORY;
use desk_definitions::{DeskEnd, FeedEnd};
use desk_io::{Sink, Source};
use desk_judging::judge_due;
use quote_board::Board;
use std::alloc::Global;
use verdict_maker::{Bench, FindingLaw};

// Judges each match that is due, and writes the report. The caller that judges is the number behind those of the feeds' callers.
pub(crate) fn finish<S: Source + Drop, K: Sink>(
    alloc: Global,
    pivots: u32,
    mut board: Board<FindingLaw>,
    mut ends: Vec<FeedEnd<S>>,
    sink: &mut K,
) -> DeskEnd<S>
    requires least_pivots { 1 ≤ pivots }
    requires most_pivots { pivots ≤ MOST_PIVOTS }
    requires law { board.fixed.law.budget ≡ pivots }
    requires few { length ends.items ≤ MOST_FEEDS }
    requires bodies { (reads : List FeedRead) × HaveBodies S.left S.faults (λ _. None) (length ends.items) ends.items reads board.fixed.rules
        × (board.history ≡ bodies_of 0 ends.items reads) }
    ensures course { (told : ℕ → Option (List ℕ)) (reads : List FeedRead) →
        HaveBodies S.left S.faults told (length ends.items) ends.items reads board.fixed.rules → board.history ≡ bodies_of 0 ends.items reads →
        RunsSo S.left S.faults told (length ends.items) pivots (record { ends = result.feeds.items; history = result.history.items }) result.status
        (sink_seen K.written K.faults sink.old sink.new) }
    ensures ends { result.feeds.items ≡ ends.items }
    ensures promised { NoneStops stops.ReadFault ends.items → result.status ≢ NOT_READ }
{
    let caller = ends.len() as u8 + 1;
    let mut bench = Bench::new(alloc, pivots);
    let Ok(()) = judge_due(alloc, &mut board, &mut bench, caller) else {
        return DeskEnd {
            status: WANT_OF_MEMORY,
            history: board.into_history(),
            feeds: ends,
        };
    };
    let status = write_the_report(alloc, pivots, &board, ends.as_mut_slice(), sink);
    DeskEnd {
        status,
        history: board.into_history(),
        feeds: ends,
    }
}
