ghost use Rattle.std.specs.Prelude.{◌≡◌, ◌≤◌, ◌*◌, length, slice_index};
ghost use Rattle.cert_checker.specs.Places.{Finds};
ghost use Rattle.scan_types.specs.declared.limits.TheConstants.{MOST_PART};

use scan_types::Offer;

/// The place of the first offer whose stake is above its limit, if there is one.
pub(crate) fn stake_above_limit(offers: &[Offer], stakes: &[u32]) -> Option<usize>
    requires { length stakes.now ≡ length offers.now }
    ensures { Finds (λ i offer. slice_index stakes.now i ≤ offer.limit) offers.now result }
{
    for (i, offer) in offers.iter().enumerate() {
        if stakes[i] > offer.limit {
            return Some(i);
        }
    }
    None
}

/// The place of the first offer whose part is above its limit times the divisor, if there is one.
pub fn part_above_limit(offers: &[Offer], parts: &[u64], divisor: u64) -> Option<usize>
    requires count { length parts.now ≡ length offers.now }
    requires divisor { divisor ≤ MOST_PART }
    ensures { Finds (λ i offer. slice_index parts.now i ≤ offer.limit * divisor) offers.now result }
{
    for (i, offer) in offers.iter().enumerate() {
        if u128::from(parts[i]) > u128::from(offer.limit) * u128::from(divisor) {
            return Some(i);
        }
    }
    None
}
