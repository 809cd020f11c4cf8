//! A run over opened feeds.
ghost use Rattle.std.specs.Prelude.{ℕ, List, Option, None, ◌≡◌, ◌≢◌, ◌≤◌, length, map, IfOk, All};
ghost use Rattle.scan_types.specs.declared.limits.TheConstants.{MOST_FEEDS, MOST_PIVOTS};
ghost use Rattle.desk_definitions.specs.declared.status.TheConstants.{NOT_READ};
ghost use Rattle.desk_definitions.specs.Opening.{AreOpened};
ghost use Rattle.desk_definitions.specs.Seen.{sink_seen};
ghost use Rattle.desk_opening.specs.Headers.{AreHeadersRead};
ghost use Rattle.desk_once.specs.Counts.{AreCounted, AreFresh};
ghost use Rattle.desk_once.specs.Outcomes.{RunsSo};
ghost use Rattle.std.specs.VecDeque.{deque_len};

use crate::books::{with_books, without_memory};
use crate::headless::{of_one_book, without_header};
use desk_definitions::DeskEnd;
use desk_io::{Sink, Source};
use desk_opening::{Begun, first_twins, read_headers};
use feed_definitions::Header;
use scan_types::WantOfMemory;
use std::alloc::Global;
use std::collections::VecDeque;

// The headers of these feeds, in order.
pub(crate) fn headers_of<S: Source + Drop>(
    alloc: Global,
    begun: &VecDeque<Begun<S>>,
) -> Result<Vec<Header>, WantOfMemory>
    ensures { IfOk result (λ headers. headers.items ≡ map (λ feed. feed.header) begun.now.items) }
{
    let mut headers = Vec::with_capacity(alloc, begun.len())?;
    for k in 0..begun.len() {
        headers.push(begun[k].header)?;
    }
    Ok(headers)
}

// The run over feeds whose headers were read.
fn with_headers<S: Source + Drop, K: Sink>(
    alloc: Global,
    pivots: u32,
    begun: VecDeque<Begun<S>>,
    sink: &mut K,
) -> DeskEnd<S>
    requires least_pivots { 1 ≤ pivots }
    requires most_pivots { pivots ≤ MOST_PIVOTS }
    requires some { 1 ≤ length begun.items }
    requires few { length begun.items ≤ MOST_FEEDS }
    requires read { AreHeadersRead S.left (λ _. None) 0 begun.items }
    ensures course { (told : ℕ → Option (List ℕ)) → AreHeadersRead S.left told 0 begun.items →
        RunsSo S.left S.faults told (length begun.items) pivots (record { ends = result.feeds.items; history = result.history.items }) result.status
        (sink_seen K.written K.faults sink.old sink.new) }
    ensures promised { All (λ feed. S.never_fails feed.reader.source) begun.items → result.status ≢ NOT_READ }
    ensures counted { AreFresh S.faults begun.items → AreCounted S.faults result.feeds.items }
{
    let Ok(headers) = headers_of(alloc, &begun) else {
        return without_memory(alloc);
    };
    match first_twins(&headers) {
        Some((earlier, later)) => of_one_book(alloc, begun, earlier, later, sink),
        None => with_books(alloc, pivots, &headers, begun, sink),
    }
}

// The run over opened feeds.
pub(crate) fn with_sources<S: Source + Drop, K: Sink>(
    alloc: Global,
    pivots: u32,
    sources: VecDeque<S>,
    sink: &mut K,
) -> DeskEnd<S>
    requires least_pivots { 1 ≤ pivots }
    requires most_pivots { pivots ≤ MOST_PIVOTS }
    requires some { 1 ≤ length sources.items }
    requires few { length sources.items ≤ MOST_FEEDS }
    requires opened { AreOpened S.left S.faults (λ _. None) 0 sources.items }
    ensures course { (told : ℕ → Option (List ℕ)) → AreOpened S.left S.faults told 0 sources.items →
        RunsSo S.left S.faults told (length sources.items) pivots (record { ends = result.feeds.items; history = result.history.items }) result.status
        (sink_seen K.written K.faults sink.old sink.new) }
    ensures promised { All S.never_fails sources.items → result.status ≢ NOT_READ }
    ensures counted { All (λ source. S.faults source ≡ 0) sources.items → AreCounted S.faults result.feeds.items }
{
    match read_headers(alloc, sources) {
        Ok(begun) => with_headers(alloc, pivots, begun, sink),
        Err(no) => without_header(alloc, no, sink),
    }
}
