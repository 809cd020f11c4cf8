//! Writing a report.
ghost use Rattle.std.specs.Prelude.{◌≡◌, ◌≤◌, OnOk, OnErr};
ghost use Rattle.std.specs.List.{flat_map, enumerate_from};
ghost use Rattle.std.specs.Io.KnownBytes.{Appends};
ghost use Rattle.desk_io.specs.Faults.{Rose};
ghost use Rattle.desk_io.specs.Sink.{AppendsPrefix};
ghost use Rattle.text_out.specs.Written.{Wrote, Gathered};
ghost use Rattle.report_definitions.specs.Report.{report_text, pivots_line, feed_line, feed_lines, match_line, refusal_line, offer_line, match_lines, finding_line};

use crate::lines::{feed_line, match_line, offer_line, pivots_line, refusal_line};
use certificates::gather_finding;
use desk_io::{Sink, WriteFailed};
use feed_definitions::Refusal;
use finding_definitions::Finding;
use report_definitions::{FeedPart, MatchPart, Report};
use scan_types::Offer;
use text_out::TextOut;

/// Writes the one text of a report, which is `report_definitions` of the crate of that name. At `Err` a write failed, and some of the text was
/// written, from its front on, and not all.
///
/// O(text), with a `put_all` for each piece of `PIECE_BYTES` bytes of it and one for the rest. Takes no memory of its own.
pub fn write_report<K: Sink>(report: &Report, sink: &mut K) -> Result<(), WriteFailed>
    ensures written { OnOk result (Appends (K.written sink.old) (K.written sink.new) (report_text report.now.pivots report.now.feeds report.now.matches)) }
    ensures cut_short { OnErr result (AppendsPrefix (K.written sink.old) (K.written sink.new) (report_text report.now.pivots report.now.feeds report.now.matches)) }
    ensures failed { OnErr result (Rose (K.faults sink.old) (K.faults sink.new)) }
    ensures no_fault { OnOk result (K.faults sink.new ≡ K.faults sink.old) }
    ensures faults_kept { K.faults sink.old ≤ K.faults sink.new }
{
    put_whole(report, sink)
}

// The text of the report, gathered and then handed on.
fn put_whole<K: Sink>(report: &Report, sink: &mut K) -> Result<(), WriteFailed>
    ensures { Wrote (K.written sink.old) (K.written sink.new) (K.faults sink.old) (K.faults sink.new) (report_text report.now.pivots report.now.feeds report.now.matches) result }
{
    let mut held = TextOut::new();
    put_report(report, &mut held, sink)?;
    held.hand_on(sink)
}

// The whole report.
fn put_report<K: Sink>(report: &Report, held: &mut TextOut, sink: &mut K) -> Result<(), WriteFailed>
    ensures { Gathered (K.written sink.old) (K.written sink.new) (K.faults sink.old) (K.faults sink.new) held.old held.new (report_text report.now.pivots report.now.feeds report.now.matches) result }
{
    held.gather(b"arbscan report 1\n", sink)?;
    put_pivots(report.pivots, held, sink)?;
    put_feeds(report.feeds.items(), held, sink)?;
    put_matches(report.matches.items(), held, sink)?;
    held.gather(b"end\n", sink)
}

// The line of the pivots.
fn put_pivots<K: Sink>(pivots: u32, held: &mut TextOut, sink: &mut K) -> Result<(), WriteFailed>
    ensures { Gathered (K.written sink.old) (K.written sink.new) (K.faults sink.old) (K.faults sink.new) held.old held.new (pivots_line pivots) result }
{
    held.gather(pivots_line(pivots).bytes(), sink)
}

// Each feed with its refused lines.
fn put_feeds<K: Sink>(
    feeds: &[FeedPart],
    held: &mut TextOut,
    sink: &mut K,
) -> Result<(), WriteFailed>
    ensures { Gathered (K.written sink.old) (K.written sink.new) (K.faults sink.old) (K.faults sink.new) held.old held.new (flat_map feed_lines (enumerate_from 0 feeds.now)) result }
{
    for (number, feed) in feeds.iter().enumerate() {
        put_feed(number as u64, feed, held, sink)?;
    }
    Ok(())
}

// A feed with its refused lines.
fn put_feed<K: Sink>(
    number: u64,
    feed: &FeedPart,
    held: &mut TextOut,
    sink: &mut K,
) -> Result<(), WriteFailed>
    ensures { Gathered (K.written sink.old) (K.written sink.new) (K.faults sink.old) (K.faults sink.new) held.old held.new (feed_lines (number, feed.now)) result }
{
    put_feed_line(number, feed, held, sink)?;
    put_refusals(number, feed.refusals.items(), held, sink)
}

// The line of a feed.
fn put_feed_line<K: Sink>(
    number: u64,
    feed: &FeedPart,
    held: &mut TextOut,
    sink: &mut K,
) -> Result<(), WriteFailed>
    ensures { Gathered (K.written sink.old) (K.written sink.new) (K.faults sink.old) (K.faults sink.new) held.old held.new (feed_line number feed.now) result }
{
    held.gather(feed_line(number, feed).bytes(), sink)
}

// Each refused line of a feed.
fn put_refusals<K: Sink>(
    number: u64,
    refusals: &[Refusal],
    held: &mut TextOut,
    sink: &mut K,
) -> Result<(), WriteFailed>
    ensures { Gathered (K.written sink.old) (K.written sink.new) (K.faults sink.old) (K.faults sink.new) held.old held.new (flat_map (refusal_line number) refusals.now) result }
{
    for refusal in refusals {
        put_refusal(number, refusal, held, sink)?;
    }
    Ok(())
}

// The line of a refused line of a feed.
fn put_refusal<K: Sink>(
    number: u64,
    refusal: &Refusal,
    held: &mut TextOut,
    sink: &mut K,
) -> Result<(), WriteFailed>
    ensures { Gathered (K.written sink.old) (K.written sink.new) (K.faults sink.old) (K.faults sink.new) held.old held.new (refusal_line number refusal.now) result }
{
    held.gather(refusal_line(number, refusal).bytes(), sink)
}

// Each match with its offers and its finding.
fn put_matches<K: Sink>(
    matches: &[MatchPart],
    held: &mut TextOut,
    sink: &mut K,
) -> Result<(), WriteFailed>
    ensures { Gathered (K.written sink.old) (K.written sink.new) (K.faults sink.old) (K.faults sink.new) held.old held.new (flat_map match_lines matches.now) result }
{
    for part in matches {
        put_match(part, held, sink)?;
    }
    Ok(())
}

// A match with its offers and its finding.
fn put_match<K: Sink>(part: &MatchPart, held: &mut TextOut, sink: &mut K) -> Result<(), WriteFailed>
    ensures { Gathered (K.written sink.old) (K.written sink.new) (K.faults sink.old) (K.faults sink.new) held.old held.new (match_lines part.now) result }
{
    put_match_line(part, held, sink)?;
    put_offers(part.sheet.offers(), held, sink)?;
    put_found(&part.finding, held, sink)
}

// The line of a match.
fn put_match_line<K: Sink>(
    part: &MatchPart,
    held: &mut TextOut,
    sink: &mut K,
) -> Result<(), WriteFailed>
    ensures { Gathered (K.written sink.old) (K.written sink.new) (K.faults sink.old) (K.faults sink.new) held.old held.new (match_line part.now) result }
{
    held.gather(match_line(part).bytes(), sink)
}

// Each offer of a sheet.
fn put_offers<K: Sink>(
    offers: &[Offer],
    held: &mut TextOut,
    sink: &mut K,
) -> Result<(), WriteFailed>
    ensures { Gathered (K.written sink.old) (K.written sink.new) (K.faults sink.old) (K.faults sink.new) held.old held.new (flat_map offer_line offers.now) result }
{
    for offer in offers {
        put_offer(offer, held, sink)?;
    }
    Ok(())
}

// The line of an offer.
fn put_offer<K: Sink>(offer: &Offer, held: &mut TextOut, sink: &mut K) -> Result<(), WriteFailed>
    ensures { Gathered (K.written sink.old) (K.written sink.new) (K.faults sink.old) (K.faults sink.new) held.old held.new (offer_line offer.now) result }
{
    held.gather(offer_line(offer).bytes(), sink)
}

// The line of a finding.
fn put_found<K: Sink>(
    finding: &Finding,
    held: &mut TextOut,
    sink: &mut K,
) -> Result<(), WriteFailed>
    ensures { Gathered (K.written sink.old) (K.written sink.new) (K.faults sink.old) (K.faults sink.new) held.old held.new (finding_line finding.now) result }
{
    held.gather(b"finding ", sink)?;
    gather_finding(finding, held, sink)?;
    held.gather(b"\n", sink)
}
