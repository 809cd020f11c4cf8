//! Decimal odds.
ghost use Rattle.std.specs.Prelude.{◌≡◌, ◌-◌, ◌*◌, ◌^◌, ◌<◌, length, option_map, IfSome};
ghost use Rattle.number_definitions.specs.Readings.{number_of, thousandths_of};
ghost use Rattle.odds_fixed.specs.Faults.{odds_or_fault};

use crate::faults::OddsFault;
use crate::number::read_number;
use crate::parts::cut;
use scan_types::Odds;

/// The thousandths that stand after a point: 1 to 3 digits.
fn read_fraction(text: &[u8]) -> Option<u32>
    ensures value { result ≡ option_map (λ parts. parts * 10 ^ (3 - length text.now)) (number_of 3 text.now) }
    ensures small { IfSome result (λ thousandths. thousandths < 100000) }
{
    let parts = read_number(text, 3)?;
    match text.len() {
        1 => Some(parts * 100),
        2 => Some(parts * 10),
        _ => Some(parts),
    }
}

/// The thousandths of 1 to 4 digits, alone or before a point and 1 to 3 more digits.
fn read_thousandths(text: &[u8]) -> Option<u32>
    ensures { result ≡ thousandths_of text.now }
{
    match cut(text, b'.') {
        None => Some(1000 * read_number(text, 4)?),
        Some((whole, fraction)) => {
            let units = read_number(whole, 4)?;
            let parts = read_fraction(fraction)?;
            Some(1000 * units + parts)
        }
    }
}

/// Decimal odds: 1 to 4 digits, and then nothing or a point and 1 to 3 digits, in thousandths from `LEAST_ODDS` to
/// `MOST_ODDS`. `BadOdds` for any other form, `OddsRange` for any other number. The rule is `thousandths_of` of
/// `number_definitions`. O(text); takes no memory.
pub fn read_odds(text: &[u8]) -> Result<Odds, OddsFault>
    ensures { result ≡ odds_or_fault text.now }
{
    match read_thousandths(text) {
        None => Err(OddsFault::BadOdds),
        Some(thousandths) => Odds::new(thousandths).ok_or(OddsFault::OddsRange),
    }
}
