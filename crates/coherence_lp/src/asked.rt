ghost use Rattle.std.specs.Prelude.{◌≡◌, ◌≤◌, ◌*◌, ◌^◌, ◌<◌, length, map, pos, ◌*ℤ◌, ◌+ℤ◌, sum_by, unsigned_abs, IfOk};
ghost use Rattle.std.specs.List.{All};
ghost use Rattle.settlement_definitions.specs.Gain.{slack};
ghost use Rattle.settlement_definitions.specs.Scores.{HasScoresInRange};
ghost use Rattle.finding_definitions.specs.Arbitrage.{need};
ghost use Rattle.judging_definitions.specs.MostProgram.{above_all_wins, most_win};
ghost use Rattle.coherence_lp.specs.Asked.{asked_for};

use scan_types::{MOST_OFFERS, Offer, Outcome, WantOfMemory};
use std::alloc::Global;
use void_rules::slack;

/// What stakes within the limits are to win at every final score.
#[derive(Clone, Copy, Debug, PartialEq, Eq)]
pub enum Needs {
    /// One minor unit.
    Plain,
    /// One minor unit, and what rounding all stakes down may cost.
    Slack,
    /// More than any stakes within the limits can win: the level then says how much they win at most.
    Most,
}

/// What must be won at an outcome: 1 at a final score, 0 at an abandonment.
fn need(outcome: Outcome) -> i128
    ensures { result ≡ need outcome }
{
    match outcome {
        Outcome::Full(_, _) => 1,
        Outcome::Abandoned(_, _) => 0,
    }
}

/// What rounding the stakes of all offers down may cost at an outcome, in thousandths of a minor unit.
fn total_slack(offers: &[Offer], outcome: Outcome) -> u64
    requires scores { HasScoresInRange outcome }
    requires few { length offers.now ≤ MOST_OFFERS }
    ensures value { result ≡ sum_by (λ offer. slack offer outcome) offers.now }
    ensures fits { result < 2 ^ 32 }
{
    let mut total = 0;
    for i in 0..offers.len() {
        total += u64::from(slack(&offers[i], outcome));
    }
    total
}

/// One minor unit more than the limits of all offers win together.
fn above_all_wins(offers: &[Offer]) -> u64
    requires few { length offers.now ≤ MOST_OFFERS }
    ensures value { result ≡ above_all_wins offers.now }
    ensures fits { result < 2 ^ 48 }
{
    let mut total = 1;
    for i in 0..offers.len() {
        total += most_win(&offers[i]);
    }
    total
}

/// What the limit of an offer wins at its odds, in minor units, rounded up.
fn most_win(offer: &Offer) -> u64
    ensures value { result ≡ most_win offer.now }
    ensures fits { result ≤ 100000000000 }
{
    (u64::from(offer.limit) * u64::from(offer.odds.thousandths - 1000)).div_ceil(1000)
}

/// What is asked for at an outcome, in 1/2000 of a minor unit.
fn asked_for(needs: Needs, offers: &[Offer], outcome: Outcome) -> i128
    requires scores { HasScoresInRange outcome }
    requires few { length offers.now ≤ MOST_OFFERS }
    ensures { result ≡ asked_for needs offers.now outcome }
{
    match needs {
        Needs::Plain => 2000 * need(outcome),
        Needs::Slack => 2 * (1000 * need(outcome) + i128::from(total_slack(offers, outcome))),
        Needs::Most => 2000 * i128::from(above_all_wins(offers)) * need(outcome),
    }
}

/// What must be won at each class.
pub fn needed_at(alloc: Global, classes: &[Outcome]) -> Result<Vec<i128>, WantOfMemory>
    ensures { IfOk result (λ asked. asked.items ≡ map need classes.now) }
{
    let mut asked = Vec::with_capacity(alloc, classes.len())?;
    for j in 0..classes.len() {
        asked.push(need(classes[j]))?;
    }
    Ok(asked)
}

/// What is asked for at each class.
pub fn asked_at(
    alloc: Global,
    needs: Needs,
    offers: &[Offer],
    classes: &[Outcome],
) -> Result<Vec<i128>, WantOfMemory>
    requires scores { All HasScoresInRange classes.now }
    requires few { length offers.now ≤ MOST_OFFERS }
    ensures { IfOk result (λ asked. asked.items ≡ map (asked_for needs offers.now) classes.now) }
{
    let mut asked = Vec::with_capacity(alloc, classes.len())?;
    for j in 0..classes.len() {
        asked.push(asked_for(needs, offers, classes[j]))?;
    }
    Ok(asked)
}
