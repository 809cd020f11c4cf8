//! The one spelling of each value, at the end of a text.
ghost use Rattle.std.specs.Prelude.{◌≡◌, ◌+◌, ◌≤◌, ◌++◌, length};
ghost use Rattle.number_definitions.specs.Spellings.{last_digit, odds_text, quarters_text, handicap_text, number_text};
ghost use Rattle.odds_fixed.specs.Rooms.{HasRoom};
ghost use Rattle.odds_fixed.specs.declared.text_buf.TheConstants.{TEXT_BYTES};

use crate::text_buf::TextBuf;
use itoa::Buffer;
use scan_types::{HandicapLine, Odds, TotalLine};

/// Bytes that each of these spellings fits in.
pub const NUMBER_BYTES: usize = 64;

// The last decimal digit of a number, as text.
fn digit(number: u32) -> u8
    ensures { result ≡ last_digit number }
{
    b'0' + (number % 10) as u8
}

// Appends quarters of a goal, with exactly two decimals.
fn put_quarters(out: &mut TextBuf, quarters: u8)
    requires { length out.old + 20 ≤ TEXT_BYTES }
    ensures spelled { out.new ≡ out.old ++ quarters_text quarters }
    ensures short { length out.new ≤ length out.old + 20 }
{
    let hundredths = 25 * u32::from(quarters % 4);
    let mut buffer = Buffer::new();
    out.push_bytes(buffer.format(quarters / 4).as_bytes());
    out.push_bytes(&[b'.', digit(hundredths / 10), digit(hundredths)]);
}

/// Appends odds: no leading zero, and exactly three decimals.
pub fn put_odds(out: &mut TextBuf, odds: Odds)
    requires { HasRoom out.old }
    ensures spelled { out.new ≡ out.old ++ odds_text odds.thousandths }
    ensures short { length out.new ≤ length out.old + NUMBER_BYTES }
{
    let n = odds.thousandths;
    let mut buffer = Buffer::new();
    out.push_bytes(buffer.format(n / 1_000).as_bytes());
    out.push_bytes(&[b'.', digit(n / 100), digit(n / 10), digit(n)]);
}

/// Appends a handicap line: exactly two decimals, and a minus sign only below zero.
pub fn put_handicap(out: &mut TextBuf, line: HandicapLine)
    requires { HasRoom out.old }
    ensures spelled { out.new ≡ out.old ++ handicap_text line.quarters }
    ensures short { length out.new ≤ length out.old + NUMBER_BYTES }
{
    if line.quarters < 0 {
        out.push_bytes(b"-");
    }
    put_quarters(out, line.quarters.unsigned_abs());
}

/// Appends a total line: exactly two decimals.
pub fn put_total(out: &mut TextBuf, line: TotalLine)
    requires { HasRoom out.old }
    ensures spelled { out.new ≡ out.old ++ quarters_text line.quarters }
    ensures short { length out.new ≤ length out.old + NUMBER_BYTES }
{
    put_quarters(out, line.quarters);
}

/// Appends a whole number in decimal digits: no leading zero, and a minus sign only below zero.
pub fn put_number(out: &mut TextBuf, n: i128)
    requires { HasRoom out.old }
    ensures spelled { out.new ≡ out.old ++ number_text n }
    ensures short { length out.new ≤ length out.old + NUMBER_BYTES }
{
    let mut buffer = Buffer::new();
    out.push_bytes(buffer.format(n).as_bytes());
}
