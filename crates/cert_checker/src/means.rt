ghost use Rattle.std.specs.Prelude.{ℤ, ◌≡◌, ◌≤◌, ◌<◌, ◌≤ℤ◌, ◌*ℤ◌, ◌^◌, pos, neg_ℤ, length};
ghost use Rattle.finding_definitions.specs.Measure.{IsMeasure};
ghost use Rattle.finding_definitions.specs.Measure.{mean as mean_of, final_weight as final_weight_of};
ghost use Rattle.finding_definitions.specs.Verdicts.{reach as reach_of};
ghost use Rattle.std.specs.Int.{int_max};
ghost use Rattle.scan_types.specs.declared.limits.TheConstants.{MOST_OFFERS};
ghost use Rattle.cert_checker.specs.Gains.{FindsGain};

use crate::terms::{weighed_gain, weighed_need};
use scan_types::{Offer, Outcome};

/// The first offer with a gain on average, with its mean: O(offers * entries).
pub(crate) fn gaining_offer(offers: &[Offer], entries: &[(Outcome, u64)]) -> Option<(usize, i128)>
    requires { IsMeasure entries.now }
    ensures { FindsGain offers.now entries.now result }
{
    for (i, offer) in offers.iter().enumerate() {
        let gained = mean(offer, entries);
        if gained > 0 {
            return Some((i, gained));
        }
    }
    None
}

/// The mean of an offer's gain, not divided by the weight of the measure. Settles the offer once at each
/// entry. With at most `MOST_MEASURE_ENTRIES` it stays within 2^91.
fn mean(offer: &Offer, entries: &[(Outcome, u64)]) -> i128
    requires { IsMeasure entries.now }
    ensures exact { result ≡ mean_of entries.now offer.now }
    ensures at_most { result ≤ℤ pos (2 ^ 91) }
{
    let mut sum: i128 = 0;
    for entry in entries {
        sum += weighed_gain(entry.1, offer, entry.0);
    }
    sum
}

/// The most that stakes within the limits can win on average. It stays below 2^126: the limits are at
/// most 10^8, and there are at most `MOST_OFFERS`.
pub fn reach(offers: &[Offer], entries: &[(Outcome, u64)]) -> i128
    requires few { length offers.now ≤ MOST_OFFERS }
    requires measure { IsMeasure entries.now }
    ensures { result ≡ reach_of offers.now entries.now }
{
    let mut sum: i128 = 0;
    for offer in offers {
        sum += most_gain(offer, entries);
    }
    sum
}

/// What the limit of an offer wins on average, or nothing if the offer has no gain on average.
fn most_gain(offer: &Offer, entries: &[(Outcome, u64)]) -> i128
    requires { IsMeasure entries.now }
    ensures exact { result ≡ pos offer.now.limit *ℤ int_max (pos 0) (mean_of entries.now offer.now) }
    ensures at_least { pos 0 ≤ℤ result }
    ensures at_most { result ≤ℤ pos (2 ^ 118) }
{
    i128::from(offer.limit) * mean(offer, entries).max(0)
}

/// 2000 times the weight of the final scores. With at most `MOST_MEASURE_ENTRIES` it stays below 2^81.
pub fn need_of_unit(entries: &[(Outcome, u64)]) -> i128
    requires { IsMeasure entries.now }
    ensures { result ≡ pos 2000 *ℤ final_weight_of entries.now }
{
    let mut sum: i128 = 0;
    for entry in entries {
        sum += weighed_need(entry.1, entry.0);
    }
    2000 * sum
}
