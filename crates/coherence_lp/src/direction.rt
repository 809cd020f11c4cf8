ghost use Rattle.std.specs.Prelude.{◌≡◌, length, map, IfOk};
ghost use Rattle.settlement_definitions.specs.Classes.{classes_of};
ghost use Rattle.judging_definitions.specs.Columns.{leading_offers};
ghost use Rattle.judging_definitions.specs.Readings.{Reads, ReadsWide, DirectionReads};
ghost use Rattle.judging_definitions.specs.Stakes.{IsFittingDivisor};
ghost use Rattle.judging_definitions.specs.FirstRun.{first_stakes};
ghost use Rattle.coherence_lp.specs.Ends.{IsFirstEnd};
ghost use Rattle.coherence_lp.specs.Faults.{IfWide};

use crate::common_stakes::common_stakes;
use crate::fault::ReadingFault;
use crate::items::{items_of, numerator_divisor};
use crate::offer_list::OfferList;
use finding_definitions::Parts;
use fraction_tableau::Tableau;
use judging_definitions::MOST_COMMON_DENOMINATOR;
use scan_types::{Offer, Sheet};
use settle_classes::ClassList;
use std::alloc::Global;

/// The direction of a tableau of the program without limits: whole numbers in the proportion of its fractional stakes, in
/// lowest terms, with the least divisor that fits them to the limits. An offer that does not lead has 0. `Wide` names the
/// first offer up to which the least common denominator of the stakes is above `MOST_COMMON_DENOMINATOR`, else the first
/// whose number is above `MOST_PART`. O(offers * (offers + classes)); takes memory for a few numbers an offer.
pub fn read_direction(
    alloc: Global,
    tableau: &Tableau,
    sheet: &Sheet,
    classes: &ClassList,
    leading: &OfferList,
) -> Result<Parts, ReadingFault>
    requires classes { classes.now ≡ classes_of sheet.now }
    requires leading { leading.now ≡ map (λ offer. offer.0) (leading_offers sheet.now classes.now) }
    requires end { IsFirstEnd sheet.now tableau.now }
    ensures direction { IfOk result (λ direction. DirectionReads sheet.now (first_stakes sheet.now tableau.now) (Reads direction)) }
    ensures wide { IfWide result (λ place. DirectionReads sheet.now (first_stakes sheet.now tableau.now) (ReadsWide place)) }
{
    let offers = sheet.offers();
    let numbers = leading.numbers();
    match common_stakes(
        alloc,
        tableau,
        sheet,
        classes,
        numbers,
        MOST_COMMON_DENOMINATOR,
    ) {
        Ok(stakes) => {
            let divisor = numerator_divisor(&stakes.ratios).max(1);
            match items_of(alloc, &stakes, divisor) {
                Ok(items) => Ok(Parts::of(fitting_divisor(offers, &items), items)),
                Err(fault) => Err(fault),
            }
        }
        Err(fault) => Err(fault),
    }
}

// The least divisor, from 1 on, by which the items are within the limits.
fn fitting_divisor(offers: &[Offer], items: &[u64]) -> u64
    requires { length items.now ≡ length offers.now }
    ensures { IsFittingDivisor offers.now items.now result }
{
    let mut divisor: u64 = 1;
    for i in 0..offers.len() {
        divisor = divisor.max(items[i].div_ceil(offers[i].limit as u64));
    }
    divisor
}
