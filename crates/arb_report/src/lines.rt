//! Each line of a report, with its line feed.
ghost use Rattle.std.specs.Prelude.{◌≡◌};
ghost use Rattle.report_definitions.specs.Report.{feed_line, refusal_line, offer_line, match_line, pivots_line};

use crate::words::{cause_word, stop_word};
use bet_words::{put_selection, rule_word};
use feed_definitions::Refusal;
use odds_fixed::{TextBuf, put_odds};
use report_definitions::{FeedPart, MatchPart};
use scan_types::Offer;
use text_out::{push_field, push_number, push_word};

// The line of the pivots.
pub(crate) fn pivots_line(pivots: u32) -> TextBuf
    ensures { result ≡ pivots_line pivots }
{
    let mut out = TextBuf::new();
    push_word(&mut out, b"pivots");
    push_number(&mut out, pivots as u64);
    push_word(&mut out, b"\n");
    out
}

// The line of a feed.
pub(crate) fn feed_line(number: u64, feed: &FeedPart) -> TextBuf
    ensures { result ≡ feed_line number feed.now }
{
    let mut out = TextBuf::new();
    push_word(&mut out, b"feed");
    push_number(&mut out, number);
    push_field(&mut out, feed.header.book.as_bytes());
    push_field(&mut out, rule_word(feed.header.rule));
    push_word(&mut out, b" lines");
    push_number(&mut out, feed.lines as u64);
    push_word(&mut out, b" refused");
    push_number(&mut out, feed.refusals.items().len() as u64);
    push_field(&mut out, stop_word(feed.stop));
    push_word(&mut out, b"\n");
    out
}

// The line of a refused line of a feed.
pub(crate) fn refusal_line(number: u64, refusal: &Refusal) -> TextBuf
    ensures { result ≡ refusal_line number refusal.now }
{
    let mut out = TextBuf::new();
    push_word(&mut out, b"refused");
    push_number(&mut out, number);
    push_number(&mut out, refusal.place.line as u64);
    push_number(&mut out, refusal.place.column as u64);
    push_field(&mut out, cause_word(refusal.cause));
    push_word(&mut out, b"\n");
    out
}

// The line of an offer.
pub(crate) fn offer_line(offer: &Offer) -> TextBuf
    ensures { result ≡ offer_line offer.now }
{
    let mut out = TextBuf::new();
    push_word(&mut out, b"offer");
    push_number(&mut out, offer.feed as u64);
    push_word(&mut out, b" ");
    put_selection(&mut out, offer.selection);
    push_word(&mut out, b" ");
    put_odds(&mut out, offer.odds);
    push_number(&mut out, offer.limit as u64);
    push_word(&mut out, b"\n");
    out
}

// The line of a match.
pub(crate) fn match_line(part: &MatchPart) -> TextBuf
    ensures { result ≡ match_line part.now }
{
    let mut out = TextBuf::new();
    push_word(&mut out, b"match");
    push_field(&mut out, part.match_name.as_bytes());
    push_word(&mut out, b" offers");
    push_number(&mut out, part.sheet.offers().len() as u64);
    push_word(&mut out, b"\n");
    out
}
