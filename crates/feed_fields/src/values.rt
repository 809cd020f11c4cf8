//! The words of a bet, names, odds, stake limits and lines as fields.
ghost use Rattle.std.specs.Prelude.{◌≡◌, IfOk};
ghost use Rattle.scan_types.specs.Ranges.{IsLimitRange};
ghost use Rattle.bet_definitions.specs.Bets.{rule_words, market_words, side_words};
ghost use Rattle.feed_definitions.specs.Forms.{one_of, name_value, odds_value, limit_value, handicap_value, total_value};

use bet_words::{BetLine, Market, read_market, read_rule, read_side};
use feed_definitions::Cause;
use odds_fixed::{LimitFault, OddsFault, read_limit, read_odds, read_quarters};
use scan_types::{HandicapLine, Name, Odds, Selection, TotalLine, VoidRule};

/// How a book settles bets if a match is abandoned.
pub fn rule_value(text: &[u8]) -> Result<VoidRule, Cause>
    ensures { result ≡ one_of rule_words text.now }
{
    read_rule(text).ok_or(Cause::UnknownWord)
}

/// On what a line bets.
pub fn market_value(text: &[u8]) -> Result<Market, Cause>
    ensures { result ≡ one_of market_words text.now }
{
    read_market(text).ok_or(Cause::UnknownWord)
}

/// A side of this market at this line, as the bet on it.
pub fn side_value(text: &[u8], market: Market, line: BetLine) -> Result<Selection, Cause>
    ensures { result ≡ one_of (side_words market line) text.now }
{
    read_side(text, market, line).ok_or(Cause::UnknownWord)
}

/// The name of a book or of a match.
pub fn name_value(text: &[u8]) -> Result<Name, Cause>
    ensures { result ≡ name_value text.now }
{
    Name::read(text).ok_or(Cause::BadName)
}

/// Decimal odds.
pub fn odds_value(text: &[u8]) -> Result<Odds, Cause>
    ensures { result ≡ odds_value text.now }
{
    match read_odds(text) {
        Ok(odds) => Ok(odds),
        Err(OddsFault::BadOdds) => Err(Cause::BadOdds),
        Err(OddsFault::OddsRange) => Err(Cause::OddsRange),
    }
}

/// A stake limit in minor units.
pub fn limit_value(text: &[u8]) -> Result<u32, Cause>
    ensures value { result ≡ limit_value text.now }
    ensures range { IfOk result IsLimitRange }
{
    match read_limit(text) {
        Ok(limit) => Ok(limit),
        Err(LimitFault::BadLimit) => Err(Cause::BadLimit),
        Err(LimitFault::LimitRange) => Err(Cause::LimitRange),
    }
}

/// A handicap line.
pub fn handicap_value(text: &[u8]) -> Result<HandicapLine, Cause>
    ensures { result ≡ handicap_value text.now }
{
    match read_quarters(text) {
        None => Err(Cause::BadLine),
        Some(quarters) => HandicapLine::new(quarters).ok_or(Cause::LineRange),
    }
}

/// A total line.
pub fn total_value(text: &[u8]) -> Result<TotalLine, Cause>
    ensures { result ≡ total_value text.now }
{
    match read_quarters(text) {
        None => Err(Cause::BadLine),
        Some(quarters) => TotalLine::new(quarters).ok_or(Cause::LineRange),
    }
}
