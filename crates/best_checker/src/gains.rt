// What parts win at the stand-ins.
ghost use Rattle.std.specs.Prelude.{◌≡◌, ◌≤◌, length, All};
ghost use Rattle.finding_definitions.specs.Arbitrage.{total_gain as total_of};
ghost use Rattle.finding_definitions.specs.Best.{IsLeastGain};
ghost use Rattle.scan_types.specs.declared.limits.TheConstants.{MOST_OFFERS, MOST_PART};
ghost use Rattle.settlement_definitions.specs.Scores.{HasScoresInRange};
ghost use Rattle.best_checker.specs.Abandonments.{FindsLossAbandoned};
ghost use Rattle.best_checker.specs.Gains.{IsLower};

use cert_checker::outcomes::total_gain;
use scan_types::{Offer, Outcome};
use settle_classes::{STAND_INS, stand_in};

/// The first stand-in of an abandonment, in class order, at which the parts lose, with the sum there.
pub(crate) fn loss_at_abandonment(offers: &[Offer], parts: &[u64]) -> Option<(Outcome, i128)>
    requires few { length offers.now ≤ MOST_OFFERS }
    requires count { length parts.now ≡ length offers.now }
    requires small { All (λ part. part ≤ MOST_PART) parts.now }
    ensures { FindsLossAbandoned (total_of offers.now parts.now) result }
{
    for k in 0..STAND_INS {
        let outcome = stand_in(k);
        if let Outcome::Abandoned(_, _) = outcome {
            let won = total_gain(offers, parts, outcome);
            if won < 0 {
                return Some((outcome, won));
            }
        }
    }
    None
}

/// The least that the parts win at a final score.
pub(crate) fn least_gain(offers: &[Offer], parts: &[u64]) -> i128
    requires few { length offers.now ≤ MOST_OFFERS }
    requires count { length parts.now ≡ length offers.now }
    requires small { All (λ part. part ≤ MOST_PART) parts.now }
    ensures { IsLeastGain offers.now parts.now result }
{
    let mut least = total_gain(offers, parts, Outcome::Full(0, 0));
    for k in 0..STAND_INS {
        least = lower_gain(offers, parts, stand_in(k), least);
    }
    least
}

// The lower of a number and what the parts win at an outcome, if that is a final score.
fn lower_gain(offers: &[Offer], parts: &[u64], outcome: Outcome, least: i128) -> i128
    requires few { length offers.now ≤ MOST_OFFERS }
    requires count { length parts.now ≡ length offers.now }
    requires small { All (λ part. part ≤ MOST_PART) parts.now }
    requires scores { HasScoresInRange outcome }
    ensures { IsLower (total_of offers.now parts.now) outcome least result }
{
    match outcome {
        Outcome::Full(_, _) => least.min(total_gain(offers, parts, outcome)),
        Outcome::Abandoned(_, _) => least,
    }
}
