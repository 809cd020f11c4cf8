ghost use Rattle.std.specs.Prelude.{◌≡◌, ◌≤◌, ◌*◌, ◌<◌, IfSome, IfNone, ℕ};
ghost use Rattle.std.specs.List.{All};
ghost use Rattle.settlement_definitions.specs.Scores.{HasScoresInRange};
ghost use Rattle.judging_definitions.specs.Columns.{offer_divisor};
ghost use Rattle.coherence_lp.specs.Ratios.{IsLeastCommonMultiple};

use fraction_rows::common_divisor;
use scan_types::{Offer, Outcome};
use void_rules::gain;

/// The divisor of an offer: the greatest common divisor of its gains at all classes.
pub fn divisor_of_offer(offer: &Offer, classes: &[Outcome]) -> u128
    requires { All HasScoresInRange classes.now }
    ensures { result ≡ offer_divisor classes.now offer.now }
{
    let mut divisor = 0;
    for j in 0..classes.len() {
        divisor = common_divisor(gain(offer, classes[j]).unsigned_abs() as u128, divisor);
    }
    divisor
}

/// The product of two numbers, unless it is above a bound.
pub fn product_within(x: u128, y: u128, most: u128) -> Option<u128>
    ensures value { IfSome result (λ product. product ≡ x * y) }
    ensures small { IfSome result (λ product. product ≤ most) }
    ensures none { IfNone result (most < x * y) }
{
    if y == 0 {
        return Some(0);
    }
    if x > most / y {
        return None;
    }
    Some(x * y)
}

/// The least common multiple of two numbers above 0, unless it is above a bound.
pub fn common_multiple_within(a: u128, b: u128, most: u128) -> Option<u128>
    requires first { 1 ≤ a }
    requires second { 1 ≤ b }
    ensures value { IfSome result (λ multiple. IsLeastCommonMultiple a b multiple) }
    ensures small { IfSome result (λ multiple. multiple ≤ most) }
    ensures none { IfNone result ((multiple : ℕ) → IsLeastCommonMultiple a b multiple → most < multiple) }
{
    let divisor = common_divisor(a, b);
    product_within(a / divisor, b, most)
}
