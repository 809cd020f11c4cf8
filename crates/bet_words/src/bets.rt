//! What is backed: its market, its line if the market has lines, and its side.
ghost use Rattle.std.specs.Prelude.{◌≡◌, ◌≤◌, ◌+◌, ◌++◌, length};
ghost use Rattle.std.specs.List.{join_with_byte};
ghost use Rattle.bet_definitions.specs.Tables.{value_of};
ghost use Rattle.bet_definitions.specs.Bets.{market_words, line_kind, side_words, selection_fields};
ghost use Rattle.odds_fixed.specs.declared.text_buf.TheConstants.{TEXT_BYTES};

use crate::words::is_word;
use bet_definitions::{BetLine, LineKind, Market};
use odds_fixed::{TextBuf, put_handicap, put_total};
use scan_types::{HandicapLine, Selection, TotalLine};

/// Bytes that each bet fits in.
pub const SELECTION_BYTES: usize = 80;

/// The market of a word. `None` for any other text.
pub fn read_market(text: &[u8]) -> Option<Market>
    ensures { result ≡ value_of market_words text.now }
{
    if is_word(text, "1x2") {
        Some(Market::OnResult)
    } else if is_word(text, "ah") {
        Some(Market::OnHandicap)
    } else if is_word(text, "total") {
        Some(Market::OnTotal)
    } else {
        None
    }
}

/// Which lines the bets of a market have.
pub fn line_kind(market: Market) -> LineKind
    ensures { result ≡ line_kind market }
{
    match market {
        Market::OnResult => LineKind::NoLine,
        Market::OnHandicap => LineKind::Handicap,
        Market::OnTotal => LineKind::Total,
    }
}

/// The bet on a market at this line whose side has this word. `None` for any other text, and at a line that the market does not have.
pub fn read_side(text: &[u8], market: Market, line: BetLine) -> Option<Selection>
    ensures { result ≡ value_of (side_words market line) text.now }
{
    match (market, line) {
        (Market::OnResult, BetLine::NoLine) => read_result(text),
        (Market::OnHandicap, BetLine::Handicap(line)) => read_handicap_side(text, line),
        (Market::OnTotal, BetLine::Total(line)) => read_total_side(text, line),
        _ => None,
    }
}

// A side of a match's result.
fn read_result(text: &[u8]) -> Option<Selection>
    ensures { result ≡ value_of (side_words Market.OnResult BetLine.NoLine) text.now }
{
    if is_word(text, "home") {
        Some(Selection::Home)
    } else if is_word(text, "draw") {
        Some(Selection::Draw)
    } else if is_word(text, "away") {
        Some(Selection::Away)
    } else {
        None
    }
}

// A side at a handicap line.
fn read_handicap_side(text: &[u8], line: HandicapLine) -> Option<Selection>
    ensures { result ≡ value_of (side_words Market.OnHandicap (BetLine.Handicap line)) text.now }
{
    if is_word(text, "home") {
        Some(Selection::HandicapHome(line))
    } else if is_word(text, "away") {
        Some(Selection::HandicapAway(line))
    } else {
        None
    }
}

// A side of a total line.
fn read_total_side(text: &[u8], line: TotalLine) -> Option<Selection>
    ensures { result ≡ value_of (side_words Market.OnTotal (BetLine.Total line)) text.now }
{
    if is_word(text, "over") {
        Some(Selection::Over(line))
    } else if is_word(text, "under") {
        Some(Selection::Under(line))
    } else {
        None
    }
}

// Appends a word.
fn push(out: &mut TextBuf, word: &[u8])
    requires { length out.old + length word.now ≤ TEXT_BYTES }
    ensures value { out.new ≡ out.old ++ word.now }
    ensures short { length out.new ≡ length out.old + length word.now }
{
    out.push_bytes(word);
}

/// Appends the one spelling of a bet: its market, its line if the market has lines, and its side, each after one space but the first.
pub fn put_selection(out: &mut TextBuf, selection: Selection)
    requires { length out.old + SELECTION_BYTES ≤ TEXT_BYTES }
    ensures spelled { out.new ≡ out.old ++ join_with_byte 32 (selection_fields selection) }
    ensures short { length out.new ≤ length out.old + SELECTION_BYTES }
{
    match selection {
        Selection::Home => push(out, b"1x2 home"),
        Selection::Draw => push(out, b"1x2 draw"),
        Selection::Away => push(out, b"1x2 away"),
        Selection::HandicapHome(line) => {
            push(out, b"ah ");
            put_handicap(out, line);
            push(out, b" home");
        }
        Selection::HandicapAway(line) => {
            push(out, b"ah ");
            put_handicap(out, line);
            push(out, b" away");
        }
        Selection::Over(line) => {
            push(out, b"total ");
            put_total(out, line);
            push(out, b" over");
        }
        Selection::Under(line) => {
            push(out, b"total ");
            put_total(out, line);
            push(out, b" under");
        }
    }
}
