ghost use Rattle.std.specs.Prelude.{ℤ, ◌≡◌, ◌≤◌, ◌≤ℤ◌, ◌^◌, pos, negsuc, neg_ℤ, length, All};
ghost use Rattle.settlement_definitions.specs.Gain.{net};
ghost use Rattle.settlement_definitions.specs.Scores.{HasScoresInRange};
ghost use Rattle.finding_definitions.specs.Arbitrage.{total_gain, total_net};
ghost use Rattle.scan_types.specs.declared.limits.TheConstants.{MOST_OFFERS, MOST_PART};
ghost use Rattle.cert_checker.specs.Losses.{FindsLoss};

use crate::terms::{need, weighed_gain};
use scan_types::{Offer, Outcome};
use settle_classes::{STAND_INS, stand_in};
use void_rules::paid;

/// The first stand-in in class order at which whole stakes win less than is needed, with what they win
/// there. Settles each offer with a stake once at each stand-in.
pub(crate) fn loss_of_stakes(offers: &[Offer], stakes: &[u32]) -> Option<(Outcome, i128)>
    requires few { length offers.now ≤ MOST_OFFERS }
    requires count { length stakes.now ≡ length offers.now }
    ensures { FindsLoss (total_net offers.now stakes.now) result }
{
    for k in 0..STAND_INS {
        let outcome = stand_in(k);
        let won = total_net(offers, stakes, outcome);
        if won < need(outcome) {
            return Some((outcome, won));
        }
    }
    None
}

/// The same for fractional stakes: the sum of parts times gains, in 1/2000.
pub(crate) fn loss_of_parts(offers: &[Offer], parts: &[u64]) -> Option<(Outcome, i128)>
    requires few { length offers.now ≤ MOST_OFFERS }
    requires count { length parts.now ≡ length offers.now }
    requires small { All (λ part. part ≤ MOST_PART) parts.now }
    ensures { FindsLoss (total_gain offers.now parts.now) result }
{
    for k in 0..STAND_INS {
        let outcome = stand_in(k);
        let won = total_gain(offers, parts, outcome);
        if won < need(outcome) {
            return Some((outcome, won));
        }
    }
    None
}

/// What whole stakes win together at an outcome. With at most `MOST_OFFERS` stakes it stays within 2^50.
fn total_net(offers: &[Offer], stakes: &[u32], outcome: Outcome) -> i128
    requires few { length offers.now ≤ MOST_OFFERS }
    requires count { length stakes.now ≡ length offers.now }
    requires scores { HasScoresInRange outcome }
    ensures { result ≡ total_net offers.now stakes.now outcome }
{
    let mut won: i128 = 0;
    for (i, offer) in offers.iter().enumerate() {
        won += net(offer, stakes[i], outcome);
    }
    won
}

/// What comes back of a stake, less the stake. Settles nothing for a stake of 0.
fn net(offer: &Offer, stake: u32, outcome: Outcome) -> i128
    requires { HasScoresInRange outcome }
    ensures exact { result ≡ net offer.now stake outcome }
    ensures at_least { neg_ℤ (pos (2 ^ 42)) ≤ℤ result }
    ensures at_most { result ≤ℤ pos (2 ^ 42) }
{
    if stake == 0 {
        return 0;
    }
    i128::from(paid(offer, stake, outcome)) - i128::from(stake)
}

/// The sum of parts times gains at an outcome. With at most `MOST_OFFERS` parts it stays within 2^89.
pub fn total_gain(offers: &[Offer], parts: &[u64], outcome: Outcome) -> i128
    requires few { length offers.now ≤ MOST_OFFERS }
    requires count { length parts.now ≡ length offers.now }
    requires small { All (λ part. part ≤ MOST_PART) parts.now }
    requires scores { HasScoresInRange outcome }
    ensures { result ≡ total_gain offers.now parts.now outcome }
{
    let mut won: i128 = 0;
    for (i, offer) in offers.iter().enumerate() {
        won += weighed_gain(parts[i], offer, outcome);
    }
    won
}
