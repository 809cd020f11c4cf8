ghost use Rattle.std.specs.Prelude.{◌≡◌, ◌==◌, ◌<◌, ◌≤◌, length, position, IfOk};
ghost use Rattle.std.specs.List.{All};
ghost use Rattle.settlement_definitions.specs.Classes.{classes_of};
ghost use Rattle.settlement_definitions.specs.Scores.{HasScoresInRange};
ghost use Rattle.judging_definitions.specs.Columns.{offer_divisor};
ghost use Rattle.judging_definitions.specs.Stakes.{stake_in_column, fractional_stakes};
ghost use Rattle.judging_definitions.specs.Readings.{FirstWideDenominator};
ghost use Rattle.coherence_lp.specs.Ends.{IsBestEnd};
ghost use Rattle.coherence_lp.specs.Faults.{IfWide};
ghost use Rattle.coherence_lp.specs.Ratios.{fraction_of, by_divisor, AreCommonStakes, IsWideStake};

use crate::factors::divisor_of_offer;
use crate::fault::ReadingFault;
use crate::offer_list::place_of;
use crate::ratio::{CommonStakes, Ratio, Share};
use crate::ratios::{column_ratio, step_stake};
use finding_definitions::WideAt;
use fraction_tableau::{MOST_COLUMNS, Tableau};
use scan_types::{Offer, Outcome, Sheet};
use settle_classes::ClassList;
use std::alloc::Global;

/// The fractional stakes of a tableau, where the columns from 1 on are those of the offers with these numbers, and their
/// least common denominator. `Wide` names the first offer up to which that is above a bound.
pub fn common_stakes(
    alloc: Global,
    tableau: &Tableau,
    sheet: &Sheet,
    classes: &ClassList,
    numbers: &[u32],
    most: u128,
) -> Result<CommonStakes, ReadingFault>
    requires classes { classes.now ≡ classes_of sheet.now }
    requires end { IsBestEnd tableau.now }
    requires columns { length numbers.now < tableau.now.columns }
    requires most { 1 ≤ most }
    ensures stakes { IfOk result (λ stakes. AreCommonStakes (fractional_stakes classes.now sheet.now numbers.now tableau.now) most stakes.ratios.items stakes.denominator) }
    ensures wide { IfWide result (IsWideStake (FirstWideDenominator most (fractional_stakes classes.now sheet.now numbers.now tableau.now))) }
{
    let offers = sheet.offers();
    let outcomes = classes.outcomes();
    let mut ratios = Vec::with_capacity(alloc, offers.len())?;
    let mut denominator = 1;
    for i in 0..offers.len() {
        let share = share_of(tableau, &offers[i], outcomes, numbers, i as u32);
        let Some(step) = step_stake(share.value, share.divisor, denominator, most) else {
            return Err(ReadingFault::Wide(WideAt::Stake(i as u32)));
        };
        denominator = step.denominator;
        ratios.push(step.ratio)?;
    }
    Ok(CommonStakes {
        ratios,
        denominator,
    })
}

// What is to be the stake of offer `i`: the value of its column by its divisor, or 0 if it has no column.
fn share_of(tableau: &Tableau, offer: &Offer, classes: &[Outcome], numbers: &[u32], i: u32) -> Share
    requires end { IsBestEnd tableau.now }
    requires scores { All HasScoresInRange classes.now }
    requires divisor { 1 ≤ offer_divisor classes.now offer.now }
    requires columns { length numbers.now < tableau.now.columns }
    ensures value { by_divisor (fraction_of result.value) result.divisor ≡ stake_in_column tableau.now (offer_divisor classes.now offer.now) (position (λ number. number == i) numbers.now) }
    ensures stands { 1 ≤ result.value.denominator }
    ensures divisor { 1 ≤ result.divisor }
{
    prove!(tableau.columns() <= MOST_COLUMNS);
    match place_of(numbers, i) {
        Some(place) => Share {
            value: column_ratio(tableau, place as u32 + 1),
            divisor: divisor_of_offer(offer, classes),
        },
        None => Share {
            value: Ratio {
                numerator: 0,
                denominator: 1,
            },
            divisor: 1,
        },
    }
}
