ghost use Rattle.std.specs.Prelude.{◌≡◌, ◌==◌, ◌<◌, ◌≤◌, ◌++◌, ◌∷◌, [], not, length, map, filter, IfOk, OnOk, unsigned_abs};
ghost use Rattle.std.specs.Int.{◌∣◌};
ghost use Rattle.std.specs.List.{range_with_len};
ghost use Rattle.row_definitions.specs.Rows.{row_divisor, divided};
ghost use Rattle.pivot_definitions.specs.Tableaus.{multiplier_of};
ghost use Rattle.judging_definitions.specs.Readings.{Reads, ReadsWide, MeasureReads};
ghost use Rattle.coherence_lp.specs.Ends.{IsProgramEnd};
ghost use Rattle.coherence_lp.specs.Faults.{IfWide};

use crate::fault::ReadingFault;
use finding_definitions::{Measure, WideAt};
use fraction_rows::common_divisor;
use fraction_tableau::Tableau;
use scan_types::{MOST_PART, Outcome, WantOfMemory};
use settle_classes::ClassList;
use std::alloc::Global;

/// The measure of a tableau: the multipliers of the classes' rows, divided by their greatest common divisor, without those
/// that are 0, in class order. `Wide` names the first class whose weight is above `MOST_PART`. By linear programming
/// duality the measure rules stakes out below level 1. O(classes) divisions; takes memory for the measure.
pub fn read_measure(
    alloc: Global,
    tableau: &Tableau,
    classes: &ClassList,
) -> Result<Measure, ReadingFault>
    requires { IsProgramEnd classes.now tableau.now }
    ensures measure { IfOk result (λ measure. MeasureReads classes.now tableau.now (Reads measure)) }
    ensures wide { IfWide result (λ place. MeasureReads classes.now tableau.now (ReadsWide place)) }
{
    let outcomes = classes.outcomes();
    let divisor = weight_divisor(tableau, outcomes.len() as u32);
    let mut items = Vec::with_capacity(alloc, outcomes.len())?;
    for j in 0..outcomes.len() {
        let weight = weight_of(tableau, j as u32, divisor);
        if weight > MOST_PART as u128 {
            return Err(ReadingFault::Wide(WideAt::Weight(j as u32)));
        }
        push_weighted(&mut items, outcomes[j], weight as u64)?;
    }
    Ok(Measure::of(items))
}

// The greatest common divisor of the multipliers of the first rows, so many of them.
fn weight_divisor(tableau: &Tableau, count: u32) -> u128
    requires { count ≤ length tableau.now.basis }
    ensures { result ≡ row_divisor (map (multiplier_of tableau.now) (range_with_len 0 count)) }
{
    let mut divisor = 0;
    for row in 0..count {
        divisor = common_divisor(tableau.multiplier(row).unsigned_abs(), divisor);
    }
    divisor
}

// The weight of a row's class: the size of the row's multiplier by a divisor of it.
fn weight_of(tableau: &Tableau, row: u32, divisor: u128) -> u128
    requires row { row < length tableau.now.basis }
    requires divides { divisor ∣ unsigned_abs (multiplier_of tableau.now row) }
    ensures { result ≡ unsigned_abs (divided divisor (multiplier_of tableau.now row)) }
{
    let size = tableau.multiplier(row).unsigned_abs();
    if size == 0 { 0 } else { size / divisor }
}

// Appends a class with its weight, if that is not 0.
fn push_weighted(
    items: &mut Vec<(Outcome, u64)>,
    class: Outcome,
    weight: u64,
) -> Result<(), WantOfMemory>
    ensures { OnOk result (items.new.items ≡ items.old.items ++ filter (λ e. not (e.1 == 0)) ((class, weight) ∷ [])) }
{
    if weight > 0 {
        items.push((class, weight))?;
    }
    Ok(())
}
