//! Each line of a feed, with its line feed.
ghost use Rattle.std.specs.Prelude.{◌≡◌, ◌<◌, ◌≤◌, ◌+◌, ◌++◌, length};
ghost use Rattle.odds_fixed.specs.declared.text_buf.TheConstants.{TEXT_BYTES};
ghost use Rattle.number_definitions.specs.Spellings.{last_digit};
ghost use Rattle.scan_types.specs.declared.limits.TheConstants.{LEAST_ODDS, MOST_ODDS};
ghost use Rattle.feed_gen.specs.declared.limits.TheConstants.{CHOICES};
ghost use Rattle.feed_gen.specs.Generated.{bet_text, choice_at, header_text, line_text, match_text, rule_of_feed};

use crate::made_line::MadeLine;
use bet_words::rule_word;
use odds_fixed::{TextBuf, put_number, put_odds};
use scan_types::{Odds, VoidRule};
use text_out::{push_field, push_number, push_word};

// The last digit of a number.
fn digit(number: u32) -> u8
    ensures { result ≡ last_digit number }
{
    b'0' + (number % 10) as u8
}

// Appends the name of a match.
fn push_match(out: &mut TextBuf, number: u32)
    requires { length out.old + 4 ≤ TEXT_BYTES }
    ensures value { out.new ≡ out.old ++ match_text number }
    ensures short { length out.new ≡ length out.old + 4 }
{
    push_word(
        out,
        &[b'm', digit(number / 100), digit(number / 10), digit(number)],
    );
}

// The market, the line and the side of a selection.
fn choice_word(choice: u32) -> &'static [u8]
    requires { choice < CHOICES }
    ensures value { result.now ≡ (choice_at choice).0 }
    ensures short { length result.now ≤ 16 }
{
    match choice {
        0 => b"1x2 home",
        1 => b"1x2 draw",
        2 => b"1x2 away",
        3 => b"ah -0.25 home",
        4 => b"ah -0.25 away",
        5 => b"total 2.50 over",
        _ => b"total 2.50 under",
    }
}

// The odds of so many thousandths.
fn odds_of(thousandths: u32) -> Odds
    requires at_least { LEAST_ODDS ≤ thousandths }
    requires at_most { thousandths ≤ MOST_ODDS }
    ensures { result.thousandths ≡ thousandths }
{
    let Some(odds) = Odds::new(thousandths) else {
        unreachable!()
    };
    odds
}

// The rule of a feed's book: the three by turns.
fn rule_of_feed(feed: u8) -> VoidRule
    ensures { result ≡ rule_of_feed feed }
{
    match feed % 3 {
        0 => VoidRule::Void,
        1 => VoidRule::Score,
        _ => VoidRule::Decided,
    }
}

// The header of a feed.
pub(crate) fn header_line(feed: u8) -> TextBuf
    requires { feed ≤ 7 }
    ensures { result ≡ header_text feed }
{
    let mut out = TextBuf::new();
    push_word(&mut out, b"feed 1 book");
    put_number(&mut out, i128::from(feed));
    push_field(&mut out, rule_word(rule_of_feed(feed)));
    push_word(&mut out, b"\n");
    out
}

// The text of a line behind the header.
pub(crate) fn made_line(line: &MadeLine) -> TextBuf
    requires offered { line.now.choice < CHOICES }
    requires odds { (LEAST_ODDS ≤ line.now.odds) × (line.now.odds ≤ MOST_ODDS) }
    ensures { result ≡ line_text line.now }
{
    let mut out = TextBuf::new();
    if line.is_quote {
        push_word(&mut out, b"quote ");
    } else {
        push_word(&mut out, b"withdraw ");
    }
    push_match(&mut out, line.match_number);
    push_field(&mut out, choice_word(line.choice));
    if line.is_quote {
        push_word(&mut out, b" ");
        put_odds(&mut out, odds_of(line.odds));
        push_number(&mut out, u64::from(line.limit));
    }
    push_word(&mut out, b"\n");
    out
}
