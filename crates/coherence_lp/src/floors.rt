ghost use Rattle.std.specs.Prelude.{◌≡◌, IfOk};
ghost use Rattle.settlement_definitions.specs.Classes.{classes_of};
ghost use Rattle.judging_definitions.specs.Stakes.{floors};
ghost use Rattle.judging_laws.specs.Laws.{limited_stakes};
ghost use Rattle.coherence_lp.specs.Ends.{IsLimitedEnd};

use crate::factors::divisor_of_offer;
use crate::ratios::column_ratio;
use finding_definitions::Stakes;
use fraction_tableau::Tableau;
use scan_types::{Sheet, WantOfMemory};
use settle_classes::ClassList;
use std::alloc::Global;

/// The fractional stakes of a tableau of a program with limits, each rounded down. O(offers * classes); takes memory for the
/// stakes.
pub fn read_floors(
    alloc: Global,
    tableau: &Tableau,
    sheet: &Sheet,
    classes: &ClassList,
) -> Result<Stakes, WantOfMemory>
    requires classes { classes.now ≡ classes_of sheet.now }
    requires end { IsLimitedEnd sheet.now tableau.now }
    ensures { IfOk result (λ stakes. stakes ≡ floors (limited_stakes sheet.now tableau.now)) }
{
    let offers = sheet.offers();
    let outcomes = classes.outcomes();
    let mut stakes = Vec::with_capacity(alloc, offers.len())?;
    for i in 0..offers.len() {
        let value = column_ratio(tableau, i as u32 + 1);
        let divisor = divisor_of_offer(&offers[i], outcomes);
        stakes.push((value.numerator / value.denominator / divisor) as u32)?;
    }
    Ok(Stakes::of(stakes))
}
