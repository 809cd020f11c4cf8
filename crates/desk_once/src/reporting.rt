//! The report of a judged board, written.
ghost use Rattle.std.specs.Prelude.{ℕ, List, ◌≡◌, ◌≤◌, ◌⊎◌, length, map, zip, All, IsSome, IsTrue, IfOk, OnErr};
ghost use Rattle.std.specs.List.{AllZip, list_any};
ghost use Rattle.report_definitions.specs.declared.feed_part.FeedPart.{FeedPart};
ghost use Rattle.report_definitions.specs.declared.match_part.MatchPart.{MatchPart};
ghost use Rattle.report_definitions.specs.Stops.{is_reported};
ghost use Rattle.report_definitions.specs.Seen.{SeenFeed};
ghost use Rattle.report_definitions.specs.Report.{report_text, IsReport};
ghost use Rattle.report_laws.specs.Boards.{HoldsLinesOf};
ghost use Rattle.desk_report.specs.Judged.{HasFindings, AllowsFindings};
ghost use Rattle.desk_definitions.specs.declared.feed_end.FeedEnd.{FeedEnd};
ghost use Rattle.desk_definitions.specs.declared.status.TheConstants.{WANT_OF_MEMORY};
ghost use Rattle.desk_definitions.specs.Seen.{sink_seen, Due, IsWritten};
ghost use Rattle.desk_definitions.specs.Reads.{FeedRead, AreRead, AreSeenAs};
ghost use Rattle.desk_definitions.specs.Course.{is_read_fault, is_cut, status_of, WritesNothing};
ghost use Rattle.desk_once.specs.Reports.{IsPartOf, emptied, filled, IsPut};

use arb_report::{FeedPart, FeedParts, MatchParts, Refusals, Report, write_report};
use board_definitions::{FeedStop, Law};
use desk_definitions::FeedEnd;
use desk_definitions::status::{CUT, DONE, NOT_READ, NOT_WRITTEN, WANT_OF_MEMORY};
use desk_io::Sink;
use desk_report::make_matches;
use quote_board::Board;
use scan_types::WantOfMemory;
use std::alloc::Global;

// What the report says of a feed, with the refused lines moved out of its end.
fn part_of<S: Drop>(alloc: Global, end: &mut FeedEnd<S>) -> FeedPart
    requires header { IsSome end.old.header }
    requires stop { IsTrue (is_reported end.old.stop) }
    ensures part { IsPartOf end.old result }
    ensures rest { end.new ≡ emptied end.old }
{
    let refusals = std::mem::replace(&mut end.refusals, Refusals::new(alloc));
    let Some(header) = end.header else {
        unreachable!()
    };
    FeedPart {
        header,
        lines: end.lines,
        refusals,
        stop: end.stop,
    }
}

// What the report says of the feeds, with their refused lines moved out of their ends. Takes all room first.
fn take_parts<S: Drop>(
    alloc: Global,
    ends: &mut [FeedEnd<S>],
) -> Result<Vec<FeedPart>, WantOfMemory>
    requires headers { All (λ end. IsSome end.header) ends.old }
    requires stopped { AreRead ends.old }
    ensures parts { IfOk result (λ parts. AllZip IsPartOf ends.old parts.items × (ends.new ≡ map emptied ends.old)) }
    ensures unchanged { OnErr result (ends.new ≡ ends.old) }
{
    let mut parts = Vec::with_capacity(alloc, ends.len())?;
    for k in 0..ends.len() {
        let part = part_of(alloc, &mut ends[k]);
        let pushed = parts.push(part);
        prove!(pushed.is_ok());
    }
    Ok(parts)
}

// Moves the refused lines of a part back into its feed's end.
fn fill<S: Drop>(end: &mut FeedEnd<S>, part: &mut FeedPart)
    ensures { end.new ≡ filled (end.old, part.old) }
{
    std::mem::swap(&mut end.refusals, &mut part.refusals);
}

// Moves the refused lines of all parts back.
fn put_back<S: Drop>(ends: &mut [FeedEnd<S>], parts: &mut [FeedPart])
    requires { length parts.old ≡ length ends.old }
    ensures { ends.new ≡ map filled (zip ends.old parts.old) }
{
    for k in 0..ends.len() {
        fill(&mut ends[k], &mut parts[k]);
    }
}

// Writes the report, and gives back what it says of the feeds.
fn write_parts<K: Sink>(
    pivots: u32,
    parts: Vec<FeedPart>,
    matches: MatchParts,
    sink: &mut K,
) -> (bool, Vec<FeedPart>)
    ensures parts { result.1.items ≡ parts.items }
    ensures put { IsPut (report_text pivots parts.items matches) (sink_seen K.written K.faults sink.old sink.new) result.0 }
{
    let report = Report {
        pivots,
        feeds: FeedParts::of(parts),
        matches,
    };
    let is_written = write_report(&report, sink).is_ok();
    let Report {
        pivots: _,
        feeds,
        matches: _,
    } = report;
    (is_written, feeds.into_items())
}

fn is_read_fault(stop: FeedStop) -> bool
    ensures { result ≡ is_read_fault stop }
{
    matches!(stop, FeedStop::ReadFault)
}

fn is_cut(stop: FeedStop) -> bool
    ensures { result ≡ is_cut stop }
{
    matches!(stop, FeedStop::Cut)
}

fn has_read_fault<S: Drop>(ends: &[FeedEnd<S>]) -> bool
    ensures { result ≡ list_any (λ end. is_read_fault end.stop) ends.now }
{
    ends.iter().any(|end| is_read_fault(end.stop))
}

fn has_cut<S: Drop>(ends: &[FeedEnd<S>]) -> bool
    ensures { result ≡ list_any (λ end. is_cut end.stop) ends.now }
{
    ends.iter().any(|end| is_cut(end.stop))
}

// The status of feeds with these ends.
fn status_of<S: Drop>(ends: &[FeedEnd<S>]) -> u8
    ensures { result ≡ status_of ends.now }
{
    if has_read_fault(ends) {
        NOT_READ
    } else if has_cut(ends) {
        CUT
    } else {
        DONE
    }
}

// Writes the report of a board that holds the lines of the feeds with these ends, and on which every due match was judged. Returns the
// status. If no memory is left, nothing is written. The ends are as before.
pub(crate) fn write_the_report<W: Law, S: Drop, K: Sink>(
    alloc: Global,
    pivots: u32,
    board: &Board<W>,
    ends: &mut [FeedEnd<S>],
    sink: &mut K,
) -> u8
    requires findings { HasFindings board.now.history }
    requires allowed { AllowsFindings pivots (W.allows board.now.fixed.law) }
    requires headers { All (λ end. IsSome end.header) ends.old }
    requires stopped { AreRead ends.old }
    ensures ends { ends.new ≡ ends.old }
    ensures written { (reads : List FeedRead) (seen : List SeenFeed) → AreSeenAs ends.old reads seen →
        HoldsLinesOf seen board.now.fixed.rules board.now.history →
        ((due : Due) × (due.status ≡ status_of ends.old) × IsReport pivots seen due.text × IsWritten due result (sink_seen K.written K.faults sink.old sink.new))
        ⊎ ((result ≡ WANT_OF_MEMORY) × WritesNothing (sink_seen K.written K.faults sink.old sink.new)) }
{
    let Ok(matches) = make_matches(alloc, board) else {
        return WANT_OF_MEMORY;
    };
    let Ok(parts) = take_parts(alloc, ends) else {
        return WANT_OF_MEMORY;
    };
    let (is_written, mut parts) = write_parts(pivots, parts, matches, sink);
    put_back(ends, parts.as_mut_slice());
    if is_written {
        status_of(ends)
    } else {
        NOT_WRITTEN
    }
}
