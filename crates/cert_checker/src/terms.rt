ghost use Rattle.std.specs.Prelude.{◌≡◌, ◌≤◌, ◌≤ℤ◌, ◌*ℤ◌, ◌^◌, pos, negsuc, neg_ℤ};
ghost use Rattle.settlement_definitions.specs.Gain.{gain as gain_of};
ghost use Rattle.settlement_definitions.specs.Scores.{HasScoresInRange};
ghost use Rattle.finding_definitions.specs.Arbitrage.{need as need_at};
ghost use Rattle.scan_types.specs.declared.limits.TheConstants.{MOST_PART};

use scan_types::{Offer, Outcome};
use void_rules::gain;

/// A weight or a part times the gain of an offer at an outcome. As a gain is at most 1,998,000, it stays
/// within 2^81. Settles nothing for a weight of 0.
pub(crate) fn weighed_gain(weight: u64, offer: &Offer, outcome: Outcome) -> i128
    requires weight { weight ≤ MOST_PART }
    requires scores { HasScoresInRange outcome }
    ensures exact { result ≡ pos weight *ℤ gain_of offer.now outcome }
    ensures at_least { neg_ℤ (pos (2 ^ 81)) ≤ℤ result }
    ensures at_most { result ≤ℤ pos (2 ^ 81) }
{
    if weight == 0 {
        return 0;
    }
    product(weight, gain(offer, outcome))
}

/// The product of a weight and a gain.
fn product(weight: u64, gain: i64) -> i128
    requires weight { weight ≤ MOST_PART }
    requires at_least { negsuc 1999 ≤ℤ gain }
    requires at_most { gain ≤ℤ pos 1998000 }
    ensures exact { result ≡ pos weight *ℤ gain }
    ensures at_least { neg_ℤ (pos (2 ^ 81)) ≤ℤ result }
    ensures at_most { result ≤ℤ pos (2 ^ 81) }
{
    i128::from(weight) * i128::from(gain)
}

/// A weight at a final score, and nothing at an abandonment.
pub(crate) fn weighed_need(weight: u64, outcome: Outcome) -> i128
    requires { weight ≤ MOST_PART }
    ensures exact { result ≡ pos weight *ℤ need_at outcome }
    ensures at_least { pos 0 ≤ℤ result }
    ensures at_most { result ≤ℤ pos MOST_PART }
{
    match outcome {
        Outcome::Full(_, _) => i128::from(weight),
        Outcome::Abandoned(_, _) => 0,
    }
}

/// What stakes must win at least: one unit at a final score, nothing at an abandonment.
pub(crate) fn need(outcome: Outcome) -> i128
    ensures { result ≡ need_at outcome }
{
    match outcome {
        Outcome::Full(_, _) => 1,
        Outcome::Abandoned(_, _) => 0,
    }
}
