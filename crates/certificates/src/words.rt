//! Words and numbers at the front of a text.
ghost use Rattle.std.specs.Prelude.{◌≡◌, ◌≤◌, ◌+◌, ◌-◌, ◌*◌, Some, None, if◌then◌else◌, IfOk};
ghost use Rattle.certificates.specs.Reading.{word_at, starts, is_digit, can_follow, digits_on, number_at, field_at, MOST_SHORT, MOST_LONG};
ghost use Rattle.certificates.specs.Gives.{Gives};

use crate::stop::Stop;

/// Whether the text begins with this byte.
pub(crate) fn begins_with(text: &[u8], byte: u8) -> bool
    ensures { result ≡ starts byte text.now }
{
    match text {
        [] => false,
        [first, ..] => *first == byte,
    }
}

/// What stands behind the word.
pub(crate) fn word<'a>(text: &'a [u8], word: &[u8]) -> Result<&'a [u8], Stop>
    ensures { Gives (λ x. x.now) result (word_at word.now text.now) }
{
    let mut rest = text;
    for byte in word {
        if !begins_with(rest, *byte) {
            return Err(Stop::Left(rest.len()));
        }
        rest = &rest[1..];
    }
    Ok(rest)
}

/// A space and a number of at most so much, which is at least 9.
#[tactic(auto, unfolding(crate::specs::Reading::field_at))]
pub(crate) fn field(text: &[u8], most: u64) -> Result<(u64, &[u8]), Stop>
    requires { 9 ≤ most }
    ensures exact { Gives (λ x. (x.0, x.1.now)) result (field_at most text.now) }
    ensures within { IfOk result (λ x. x.0 ≤ most) }
{
    let rest = word(text, b" ")?;
    number(rest, most)
}

/// A space and a number of 32 bits.
pub(crate) fn short(text: &[u8]) -> Result<(u32, &[u8]), Stop>
    ensures { Gives (λ x. (x.0, x.1.now)) result (field_at MOST_SHORT text.now) }
{
    let (number, rest) = field(text, u32::MAX as u64)?;
    Ok((number as u32, rest))
}

/// A space and a number of 64 bits.
pub(crate) fn long(text: &[u8]) -> Result<(u64, &[u8]), Stop>
    ensures { Gives (λ x. (x.0, x.1.now)) result (field_at MOST_LONG text.now) }
{
    field(text, u64::MAX)
}

/// A number of at most so much, without a leading zero.
#[tactic(auto, unfolding(crate::specs::Reading::number_at))]
fn number(text: &[u8], most: u64) -> Result<(u64, &[u8]), Stop>
    requires { 9 ≤ most }
    ensures exact { Gives (λ x. (x.0, x.1.now)) result (number_at most text.now) }
    ensures within { IfOk result (λ x. x.0 ≤ most) }
{
    match text {
        [] => Err(Stop::Left(0)),
        [first, rest @ ..] => {
            if !is_digit(*first) {
                return Err(Stop::Left(text.len()));
            }
            Ok(digits((*first - b'0') as u64, rest, most))
        }
    }
}

/// Whether the byte is a decimal digit.
fn is_digit(byte: u8) -> bool
    ensures { result ≡ is_digit byte }
{
    b'0' <= byte && byte <= b'9'
}

/// The number with the digits that follow it, as long as it stays within the most.
fn digits(number: u64, text: &[u8], most: u64) -> (u64, &[u8])
    requires { number ≤ most }
    ensures exact { (result.0, result.1.now) ≡ digits_on most number text.now }
    ensures within { result.0 ≤ most }
{
    let mut number = number;
    let mut rest = text;
    while let [byte, after @ ..] = rest {
        match followed(number, *byte, most) {
            None => return (number, rest),
            Some(next) => {
                number = next;
                rest = after;
            }
        }
    }
    (number, rest)
}

/// The number with one digit more, if the byte is one that can follow.
fn followed(number: u64, byte: u8, most: u64) -> Option<u64>
    ensures { result ≡ (if can_follow most number byte then Some (10 * number + (byte - 48)) else None) }
{
    if !is_digit(byte) || number == 0 {
        return None;
    }
    let next = 10 * number as u128 + (byte - b'0') as u128;
    if next <= most as u128 {
        Some(next as u64)
    } else {
        None
    }
}
