// The sure gain of stakes and the bound of a measure, in minor units.
ghost use Rattle.std.specs.Prelude.{◌≡◌, ◌≤◌, ◌↔◌, IsTrue, length, All};
ghost use Rattle.finding_definitions.specs.Measure.{IsPriceMeasure};
ghost use Rattle.scan_types.specs.declared.limits.TheConstants.{MOST_OFFERS, MOST_PART};
ghost use Rattle.best_checker.specs.Amounts.{IsBound, IsSureGain};

use crate::fractions::in_lowest_terms;
use crate::gains::least_gain;
use cert_checker::means::{need_of_unit, reach};
use scan_types::{Offer, Outcome};

/// The least that the parts over the divisor win at a final score.
pub(crate) fn sure_gain(offers: &[Offer], parts: &[u64], divisor: u64) -> (i128, i128)
    requires few { length offers.now ≤ MOST_OFFERS }
    requires count { length parts.now ≡ length offers.now }
    requires small { All (λ part. part ≤ MOST_PART) parts.now }
    requires divides { 1 ≤ divisor }
    ensures { IsSureGain offers.now divisor parts.now result }
{
    in_lowest_terms(least_gain(offers, parts), 2000 * i128::from(divisor))
}

/// The most that any stakes within the limits can win for sure, by the measure.
pub(crate) fn bound(offers: &[Offer], entries: &[(Outcome, u64)]) -> (i128, i128)
    requires few { length offers.now ≤ MOST_OFFERS }
    requires price { IsPriceMeasure entries.now }
    ensures { IsBound offers.now entries.now result }
{
    in_lowest_terms(reach(offers, entries), need_of_unit(entries))
}

/// Whether two fractions have the same numbers.
pub(crate) fn same(one: (i128, i128), other: (i128, i128)) -> bool
    ensures { IsTrue result ↔ (one ≡ other) }
{
    one.0 == other.0 && one.1 == other.1
}
