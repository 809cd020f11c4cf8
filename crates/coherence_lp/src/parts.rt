ghost use Rattle.std.specs.Prelude.{◌≡◌, IfOk};
ghost use Rattle.std.specs.List.{range_with_len};
ghost use Rattle.settlement_definitions.specs.Classes.{classes_of};
ghost use Rattle.judging_definitions.specs.Readings.{Reads, ReadsWide, PartsRead};
ghost use Rattle.judging_laws.specs.Laws.{limited_stakes};
ghost use Rattle.coherence_lp.specs.Ends.{IsLimitedEnd};
ghost use Rattle.coherence_lp.specs.Faults.{IfWide};

use crate::common_stakes::common_stakes;
use crate::fault::ReadingFault;
use crate::items::items_of;
use finding_definitions::Parts;
use fraction_tableau::Tableau;
use scan_types::{MOST_PART, Sheet, WantOfMemory};
use settle_classes::ClassList;
use std::alloc::Global;

/// The fractional stakes of a tableau of a program with limits over their least common denominator. `Wide` names the first
/// offer up to which that denominator is above `MOST_PART`, else the first whose part is. O(offers * (offers + classes));
/// takes memory for a few numbers an offer.
pub fn read_parts(
    alloc: Global,
    tableau: &Tableau,
    sheet: &Sheet,
    classes: &ClassList,
) -> Result<Parts, ReadingFault>
    requires classes { classes.now ≡ classes_of sheet.now }
    requires end { IsLimitedEnd sheet.now tableau.now }
    ensures parts { IfOk result (λ parts. PartsRead (limited_stakes sheet.now tableau.now) (Reads parts)) }
    ensures wide { IfWide result (λ place. PartsRead (limited_stakes sheet.now tableau.now) (ReadsWide place)) }
{
    let numbers = first_numbers(alloc, sheet.offers().len() as u32)?;
    match common_stakes(alloc, tableau, sheet, classes, &numbers, MOST_PART as u128) {
        Ok(stakes) => match items_of(alloc, &stakes, 1) {
            Ok(items) => Ok(Parts::of(stakes.denominator as u64, items)),
            Err(fault) => Err(fault),
        },
        Err(fault) => Err(fault),
    }
}

// The first numbers, so many of them.
fn first_numbers(alloc: Global, count: u32) -> Result<Vec<u32>, WantOfMemory>
    ensures { IfOk result (λ numbers. numbers.items ≡ range_with_len 0 count) }
{
    let mut numbers = Vec::with_capacity(alloc, count as usize)?;
    for i in 0..count {
        numbers.push(i)?;
    }
    Ok(numbers)
}
