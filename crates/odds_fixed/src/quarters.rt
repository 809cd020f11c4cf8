//! Lines in quarters of a goal.
ghost use Rattle.std.specs.Prelude.{◌≡◌, ◌≤◌, ◌<◌, IfSome, option_map, pos, neg_ℤ};
ghost use Rattle.number_definitions.specs.Readings.{fraction_of, plain_quarters_of, quarters_of};

use crate::number::read_number;
use crate::parts::{cut, is_word};

/// The quarters of a fraction of a goal: `0`, `5`, `00`, `25`, `50` or `75`.
fn read_fraction(text: &[u8]) -> Option<u32>
    ensures value { result ≡ fraction_of text.now }
    ensures small { IfSome result (λ quarters. quarters ≤ 3) }
{
    if is_word(text, "0") || is_word(text, "00") {
        Some(0)
    } else if is_word(text, "25") {
        Some(1)
    } else if is_word(text, "5") || is_word(text, "50") {
        Some(2)
    } else if is_word(text, "75") {
        Some(3)
    } else {
        None
    }
}

/// Goals without a sign, in quarters: 1 or 2 digits, and then nothing or a point and a fraction.
fn read_goals(text: &[u8]) -> Option<u32>
    ensures value { result ≡ plain_quarters_of text.now }
    ensures small { IfSome result (λ quarters. quarters < 400) }
{
    match cut(text, b'.') {
        None => Some(4 * read_number(text, 2)?),
        Some((whole, fraction)) => {
            let goals = read_number(whole, 2)?;
            let quarters = read_fraction(fraction)?;
            Some(4 * goals + quarters)
        }
    }
}

/// The same as a number of quarters from 0 on.
fn goals_above(text: &[u8]) -> Option<i16>
    ensures { result ≡ option_map pos (plain_quarters_of text.now) }
{
    Some(read_goals(text)? as i16)
}

/// The same as a number of quarters up to 0.
fn goals_below(text: &[u8]) -> Option<i16>
    ensures { result ≡ option_map (λ quarters. neg_ℤ (pos quarters)) (plain_quarters_of text.now) }
{
    Some(-(read_goals(text)? as i16))
}

/// A line in quarters of a goal, from -399 to 399: a sign or none, 1 or 2 digits, and then nothing or a point and `0`, `5`,
/// `00`, `25`, `50` or `75`. `None` for any other text. Which of them are lines of a market, `HandicapLine::new` and
/// `TotalLine::new` say. The rule is `quarters_of` of `number_definitions`. O(text); takes no memory.
pub fn read_quarters(text: &[u8]) -> Option<i16>
    ensures { result ≡ quarters_of text.now }
{
    if text.is_empty() {
        return None;
    }
    let sign = text[0];
    if sign == b'+' {
        return goals_above(&text[1..]);
    }
    if sign == b'-' {
        return goals_below(&text[1..]);
    }
    goals_above(text)
}
