//! Runs of which no body is read: a feed has no header, or two feeds are of one book.
ghost use Rattle.std.specs.Prelude.{ℕ, List, Option, None, ◌≡◌, ◌≢◌, ◌+◌, ◌≤◌, length, map};
ghost use Rattle.std.specs.VecDeque.{deque_len};
ghost use Rattle.scan_types.specs.declared.limits.TheConstants.{MOST_FEEDS};
ghost use Rattle.desk_definitions.specs.declared.status.TheConstants.{NOT_READ};
ghost use Rattle.desk_definitions.specs.Seen.{sink_seen};
ghost use Rattle.desk_opening.specs.Headers.{AreHeadersRead, StopsSo, IsNoReadFault};
ghost use Rattle.desk_opening.specs.Twins.{AreFirstTwinBooks, books_of};
ghost use Rattle.desk_once.specs.Headless.{IsSaidOf};
ghost use Rattle.desk_once.specs.Counts.{AreCounted, AreFresh};
ghost use Rattle.desk_once.specs.Outcomes.{RunsSo};

use desk_definitions::status::{BAD_HEADER, NOT_READ, WANT_OF_MEMORY};
use desk_definitions::{DeskEnd, FeedEnd};
use desk_io::{Sink, Source};
use desk_opening::{Begun, HeaderStop, NoHeaders, begun_ends};
use desk_texts::{cannot_be_read, have_one_name, is_no_header, write_text};
use std::alloc::Global;
use std::collections::VecDeque;

// The number of the last of these feeds.
fn last_number<S: Drop>(ends: &[FeedEnd<S>]) -> u8
    requires { length ends.now ≤ MOST_FEEDS }
    ensures { 1 ≤ length ends.now → result + 1 ≡ length ends.now }
{
    if ends.is_empty() {
        return 0;
    }
    (ends.len() - 1) as u8
}

// Says why the feed of this number has no header, and returns the status.
fn say_no_header<K: Sink>(stop: HeaderStop, number: u8, sink: &mut K) -> u8
    ensures { IsSaidOf stop number result (sink_seen K.written K.faults sink.old sink.new) }
{
    match stop {
        HeaderStop::ReadFault => write_text(sink, NOT_READ, cannot_be_read(number).bytes()),
        HeaderStop::BadHeader(refusal) => {
            write_text(sink, BAD_HEADER, is_no_header(number, &refusal).bytes())
        }
        HeaderStop::NoMemory => WANT_OF_MEMORY,
    }
}

// The run over feeds of which the last one that was begun has no header.
pub(crate) fn without_header<S: Source + Drop, K: Sink>(
    alloc: Global,
    no: NoHeaders<S>,
    sink: &mut K,
) -> DeskEnd<S>
    requires stop { (names : ℕ) × (names ≤ MOST_FEEDS) × StopsSo S.left S.faults (λ _. None) names no.stop no.ends.items }
    ensures course { (told : ℕ → Option (List ℕ)) (names budget : ℕ) → StopsSo S.left S.faults told names no.stop no.ends.items →
        RunsSo S.left S.faults told names budget (record { ends = result.feeds.items; history = result.history.items }) result.status
        (sink_seen K.written K.faults sink.old sink.new) }
    ensures ends { result.feeds.items ≡ no.ends.items }
    ensures promised { IsNoReadFault no.stop → result.status ≢ NOT_READ }
{
    let NoHeaders { ends, stop } = no;
    let number = last_number(&ends);
    let status = say_no_header(stop, number, sink);
    DeskEnd {
        status,
        history: Vec::new(alloc),
        feeds: ends,
    }
}

// The run over feeds of which these two are the first of one book.
pub(crate) fn of_one_book<S: Source + Drop, K: Sink>(
    alloc: Global,
    begun: VecDeque<Begun<S>>,
    earlier: u8,
    later: u8,
    sink: &mut K,
) -> DeskEnd<S>
    requires few { deque_len begun ≤ MOST_FEEDS }
    ensures course { (told : ℕ → Option (List ℕ)) (names budget : ℕ) → AreHeadersRead S.left told 0 begun.items → length begun.items ≡ names →
        AreFirstTwinBooks (books_of (map (λ b. b.header) begun.items)) earlier later →
        RunsSo S.left S.faults told names budget (record { ends = result.feeds.items; history = result.history.items }) result.status
        (sink_seen K.written K.faults sink.old sink.new) }
    ensures counted { AreFresh S.faults begun.items → AreCounted S.faults result.feeds.items }
    ensures no_read_fault { result.status ≢ NOT_READ }
{
    match begun_ends(alloc, begun) {
        Ok(ends) => DeskEnd {
            status: write_text(sink, BAD_HEADER, have_one_name(earlier, later).bytes()),
            history: Vec::new(alloc),
            feeds: ends,
        },
        Err(_) => DeskEnd {
            status: WANT_OF_MEMORY,
            history: Vec::new(alloc),
            feeds: Vec::new(alloc),
        },
    }
}
