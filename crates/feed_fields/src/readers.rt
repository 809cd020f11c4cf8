//! The next field by its test. Each function reads one field, or finds what is wrong with it.
ghost use Rattle.std.specs.Prelude.{◌≡◌, IfOk};
ghost use Rattle.scan_types.specs.Ranges.{IsLimitRange};
ghost use Rattle.feed_definitions.specs.Fields.{next, next_at};
ghost use Rattle.bet_definitions.specs.Bets.{rule_words, market_words, side_words};
ghost use Rattle.feed_definitions.specs.Forms.{one_of, feed_words, version_words, action_words};
ghost use Rattle.feed_definitions.specs.Forms.{name_value, odds_value, limit_value, handicap_value, total_value};

use crate::fields::Fields;
use crate::values::{
    handicap_value, limit_value, market_value, name_value, odds_value, rule_value, side_value,
    total_value,
};
use crate::words::{action_word, feed_word, version_word};
use bet_words::{BetLine, Market};
use feed_definitions::{Action, Fault};
use scan_types::{HandicapLine, Name, Odds, Selection, TotalLine, VoidRule};

/// The word that a header begins with.
pub fn next_feed<'a>(fields: Fields<'a>) -> Result<((), Fields<'a>), Fault>
    ensures { result ≡ next (one_of feed_words) fields.entry }
{
    let (field, others) = fields.next()?;
    let value = field.tested(feed_word(field.bytes()))?;
    Ok((value, others))
}

/// The version of the feed text.
pub fn next_version<'a>(fields: Fields<'a>) -> Result<((), Fields<'a>), Fault>
    ensures { result ≡ next (one_of version_words) fields.entry }
{
    let (field, others) = fields.next()?;
    let value = field.tested(version_word(field.bytes()))?;
    Ok((value, others))
}

/// A name.
pub fn next_name<'a>(fields: Fields<'a>) -> Result<(Name, Fields<'a>), Fault>
    ensures { result ≡ next name_value fields.entry }
{
    let (field, others) = fields.next()?;
    let value = field.tested(name_value(field.bytes()))?;
    Ok((value, others))
}

/// How a book settles bets if a match is abandoned.
pub fn next_rule<'a>(fields: Fields<'a>) -> Result<(VoidRule, Fields<'a>), Fault>
    ensures { result ≡ next (one_of rule_words) fields.entry }
{
    let (field, others) = fields.next()?;
    let value = field.tested(rule_value(field.bytes()))?;
    Ok((value, others))
}

/// What the line does.
pub fn next_action<'a>(fields: Fields<'a>) -> Result<(Action, Fields<'a>), Fault>
    ensures { result ≡ next (one_of action_words) fields.entry }
{
    let (field, others) = fields.next()?;
    let value = field.tested(action_word(field.bytes()))?;
    Ok((value, others))
}

/// On what the line bets.
pub fn next_market<'a>(fields: Fields<'a>) -> Result<(Market, Fields<'a>), Fault>
    ensures { result ≡ next (one_of market_words) fields.entry }
{
    let (field, others) = fields.next()?;
    let value = field.tested(market_value(field.bytes()))?;
    Ok((value, others))
}

/// A handicap line.
pub fn next_handicap<'a>(fields: Fields<'a>) -> Result<(HandicapLine, Fields<'a>), Fault>
    ensures { result ≡ next handicap_value fields.entry }
{
    let (field, others) = fields.next()?;
    let value = field.tested(handicap_value(field.bytes()))?;
    Ok((value, others))
}

/// A total line.
pub fn next_total<'a>(fields: Fields<'a>) -> Result<(TotalLine, Fields<'a>), Fault>
    ensures { result ≡ next total_value fields.entry }
{
    let (field, others) = fields.next()?;
    let value = field.tested(total_value(field.bytes()))?;
    Ok((value, others))
}

/// A side of this market at this line, as the bet on it.
pub fn next_side<'a>(
    fields: Fields<'a>,
    market: Market,
    line: BetLine,
) -> Result<(Selection, Fields<'a>), Fault>
    ensures { result ≡ next (one_of (side_words market line)) fields.entry }
{
    let (field, others) = fields.next()?;
    let value = field.tested(side_value(field.bytes(), market, line))?;
    Ok((value, others))
}

/// Decimal odds.
pub fn next_odds<'a>(fields: Fields<'a>) -> Result<(Odds, Fields<'a>), Fault>
    ensures { result ≡ next odds_value fields.entry }
{
    let (field, others) = fields.next()?;
    let value = field.tested(odds_value(field.bytes()))?;
    Ok((value, others))
}

/// A stake limit in minor units.
pub fn next_limit<'a>(fields: Fields<'a>) -> Result<(u32, Fields<'a>), Fault>
    ensures value { result ≡ next limit_value fields.entry }
    ensures range { IfOk result (λ read. IsLimitRange read.0) }
{
    let (field, others) = fields.next()?;
    let value = field.tested(limit_value(field.bytes()))?;
    Ok((value, others))
}

/// A name, and the column of its first byte.
pub fn next_placed_name<'a>(fields: Fields<'a>) -> Result<((u32, Name), Fields<'a>), Fault>
    ensures { result ≡ next_at name_value fields.entry }
{
    let (field, others) = fields.next()?;
    let value = field.tested(name_value(field.bytes()))?;
    Ok(((field.column(), value), others))
}
