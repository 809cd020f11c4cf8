ghost use Rattle.std.specs.Prelude.{◌≡◌, ◌≤◌, length, map, pos, IfOk};
ghost use Rattle.std.specs.List.{All};
ghost use Rattle.row_definitions.specs.Rows.{row_divisor};
ghost use Rattle.scan_types.specs.declared.limits.TheConstants.{MOST_OFFERS, MOST_PART};
ghost use Rattle.judging_definitions.specs.Readings.{FirstAbove, NoneAbove};
ghost use Rattle.coherence_lp.specs.Faults.{IfWide};
ghost use Rattle.coherence_lp.specs.Ratios.{item_of, IsWideStake};

use crate::factors::product_within;
use crate::fault::ReadingFault;
use crate::ratio::{CommonStakes, Ratio};
use finding_definitions::WideAt;
use fraction_rows::common_divisor;
use scan_types::MOST_PART;
use std::alloc::Global;

/// The stakes over their common denominator, each by a number. `Wide` names the first that is above `MOST_PART`.
pub fn items_of(
    alloc: Global,
    stakes: &CommonStakes,
    divisor: u128,
) -> Result<Vec<u64>, ReadingFault>
    requires stand { All (λ ratio. 1 ≤ ratio.denominator) stakes.now.ratios.items }
    requires few { length stakes.now.ratios.items ≤ MOST_OFFERS }
    requires divisor { 1 ≤ divisor }
    ensures items { IfOk result (λ items. items.items ≡ map (item_of stakes.now.denominator divisor) stakes.now.ratios.items) }
    ensures small { IfOk result (λ items. NoneAbove MOST_PART items.items) }
    ensures wide { IfWide result (IsWideStake (FirstAbove MOST_PART (map (item_of stakes.now.denominator divisor) stakes.now.ratios.items))) }
{
    let ratios = stakes.ratios.as_slice();
    let mut items = Vec::with_capacity(alloc, ratios.len())?;
    for i in 0..ratios.len() {
        let times = stakes.denominator / ratios[i].denominator;
        let Some(item) = product_within(times, ratios[i].numerator / divisor, MOST_PART as u128)
        else {
            return Err(ReadingFault::Wide(WideAt::Stake(i as u32)));
        };
        items.push(item as u64)?;
    }
    Ok(items)
}

/// The greatest common divisor of the numerators, and 0 if all are 0.
pub fn numerator_divisor(ratios: &[Ratio]) -> u128
    ensures { result ≡ row_divisor (map (λ ratio. pos ratio.numerator) ratios.now) }
{
    let mut divisor = 0;
    for i in 0..ratios.len() {
        divisor = common_divisor(ratios[i].numerator, divisor);
    }
    divisor
}
