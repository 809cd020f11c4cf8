//! What a bet gains, is paid and may lose by rounding, under each rule on abandoned matches.
#![tactic(auto)]

ghost use Rattle.std.specs.Prelude.{◌≡◌, ◌≤◌, ◌*◌, ◌^◌, ◌≤ℤ◌, ◌-ℤ◌, ◌*ℤ◌, pos, negsuc};
ghost use Rattle.settlement_definitions.specs.Abandonment.{leg_at, leg_at_abandonment};
ghost use Rattle.settlement_definitions.specs.Decided.{exceeds_line};
ghost use Rattle.settlement_definitions.specs.Gain.{gain, leg_gain, paid, slack};
ghost use Rattle.settlement_definitions.specs.Scores.{HasScoresInRange};

use market_rules::{LegResult, leg_result};
use quarter_lines::{legs, line_of};
use scan_types::{MOST_ODDS, MOST_SCORE, Odds, Offer, Outcome, Selection, VoidRule};

/// Whether the goals exceed the line of an over or under leg: then no later goal changes it.
fn exceeds_line(selection: Selection, leg: i8, h: u64, a: u64) -> bool
    requires home { h ≤ MOST_SCORE }
    requires away { a ≤ MOST_SCORE }
    ensures { result ≡ exceeds_line selection leg h a }
{
    match selection {
        Selection::Over(_) | Selection::Under(_) => i64::from(leg) < 4 * (h + a) as i64,
        _ => false,
    }
}

/// How a leg goes at an outcome under the offer's rule.
fn leg_at(rule: VoidRule, selection: Selection, leg: i8, outcome: Outcome) -> LegResult
    requires { HasScoresInRange outcome }
    ensures { result ≡ leg_at rule selection leg outcome }
{
    match outcome {
        Outcome::Full(h, a) => leg_result(selection, leg, h, a),
        Outcome::Abandoned(h, a) => match rule {
            VoidRule::Void => LegResult::Push,
            VoidRule::Score => leg_result(selection, leg, h, a),
            VoidRule::Decided => decided_result(selection, leg, h, a),
        },
    }
}

/// What a leg gains, in thousandths of what is staked on it.
fn leg_gain(odds: Odds, settled: LegResult) -> i64
    ensures exact { result ≡ leg_gain odds.thousandths settled }
    ensures at_least { negsuc 999 ≤ℤ result }
    ensures at_most { result ≤ℤ pos 999000 }
{
    match settled {
        LegResult::Win => i64::from(odds.thousandths) - 1000,
        LegResult::Push => 0,
        LegResult::Lose => -1000,
    }
}

/// How a leg goes under `decided`. The rule speaks of every later score; the goals tell what it says.
fn decided_result(selection: Selection, leg: i8, h: u64, a: u64) -> LegResult
    requires home { h ≤ MOST_SCORE }
    requires away { a ≤ MOST_SCORE }
    ensures { result ≡ leg_at_abandonment VoidRule.Decided selection leg h a }
{
    if exceeds_line(selection, leg, h, a) {
        leg_result(selection, leg, h, a)
    } else {
        LegResult::Push
    }
}

/// What a bet gains at an outcome, in 1/2000 of its stake: half the stake is on each leg, and a leg
/// gains the odds less 1000, 0 or -1000 as it wins, pushes or loses. Scores are at most `MOST_SCORE`.
///
/// Where the match is abandoned, as books publish it: `void` gives all stakes back, `score` settles on
/// the score at abandonment, and `decided` lets each leg stand that no later goal can change and gives
/// the rest back. Takes constant time.
pub fn gain(offer: &Offer, outcome: Outcome) -> i64
    requires { HasScoresInRange outcome }
    ensures exact { result ≡ gain offer.now outcome }
    ensures at_least { negsuc 1999 ≤ℤ result }
    ensures at_most { result ≤ℤ pos 1998000 }
{
    let (low, high) = legs(line_of(offer.selection));
    let first = leg_gain(
        offer.odds,
        leg_at(offer.rule, offer.selection, low, outcome),
    );
    if low == high {
        return 2 * first;
    }
    let second = leg_gain(
        offer.odds,
        leg_at(offer.rule, offer.selection, high, outcome),
    );
    first + second
}

/// What comes back of a stake at an outcome, in minor units: stake and gain, rounded down once.
/// Scores are at most `MOST_SCORE`.
pub fn paid(offer: &Offer, stake: u32, outcome: Outcome) -> u64
    requires { HasScoresInRange outcome }
    ensures exact { result ≡ paid offer.now stake outcome }
    ensures at_most { result ≤ 1000 * stake }
{
    let returned = (2000 + gain(offer, outcome)) as u64;
    u64::from(stake) * returned / 2000
}

/// What rounding a stake down to whole minor units may cost at an outcome, in thousandths of a unit:
/// the odds at a gain, 1000 where just one of two legs is lost and none won, else 0. Scores are at most
/// `MOST_SCORE`.
pub fn slack(offer: &Offer, outcome: Outcome) -> u32
    requires { HasScoresInRange outcome }
    ensures exact { result ≡ slack offer.now outcome }
    ensures at_most { result ≤ MOST_ODDS }
{
    let gained = gain(offer, outcome);
    if gained > 0 {
        offer.odds.thousandths
    } else if gained == -1000 {
        1000
    } else {
        0
    }
}

#[cfg(test)]
mod tests;
