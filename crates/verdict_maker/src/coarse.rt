// The coarse verdict: a measure with odds rounded up, or stakes with odds rounded down.
ghost use Rattle.std.specs.Prelude.{◌≡◌, length, map, IfOk};
ghost use Rattle.settlement_definitions.specs.Classes.{classes_of};
ghost use Rattle.judging_definitions.specs.Columns.{leading_offers};
ghost use Rattle.judging_definitions.specs.CoarseOdds.{raised_offers, lowered_offers, kept_numbers, with_zeros};
ghost use Rattle.judging_definitions.specs.FirstRun.{first_program};
ghost use Rattle.judging_definitions.specs.CoarseFinding.{IsMeasureAt, IsCoarseMeasure, AreStakesInDirection, AreStakesAt, AreCoarseStakes, IsCoarseVerdict};
ghost use Rattle.judging_laws.specs.Laws.{IsAtBest};
ghost use Rattle.verdict_maker.specs.Turns.{HasSome};
ghost use Rattle.verdict_maker.specs.Tries.{FoundBy};

use crate::first_run::first_run;
use crate::runs::Ran;
use crate::scaling::scaled_floors;
use crate::turns::says_yes;
use coherence_lp::{
    Coarse, OfferList, ReadingFault, coarse_down, coarse_up, has_level_one, read_direction,
    read_measure,
};
use finding_definitions::Finding;
use fraction_tableau::Tableau;
use scan_types::{Sheet, WantOfMemory};
use settle_classes::ClassList;
use std::alloc::Global;

/// The measure of the best tableau of a sheet's first run, at level 0.
fn measure_at_level_zero(
    alloc: Global,
    tableau: &Tableau,
    sheet: &Sheet,
    classes: &ClassList,
) -> Result<Option<Finding>, WantOfMemory>
    requires classes { classes.now ≡ classes_of sheet.now }
    requires best { IsAtBest (first_program sheet.now) tableau.now }
    ensures { IfOk result (FoundBy (IsMeasureAt sheet.now tableau.now)) }
{
    if has_level_one(tableau) {
        return Ok(None);
    }
    match read_measure(alloc, tableau, classes) {
        Ok(measure) => Ok(Some(Finding::Coherent(measure))),
        Err(ReadingFault::Wide(_)) => Ok(None),
        Err(ReadingFault::WantOfMemory) => Err(WantOfMemory),
    }
}

/// The measure of the sheet with its odds rounded up. It is right for the sheet itself, so the separate checker says yes to it.
fn coarse_measure(
    alloc: Global,
    tableau: &mut Tableau,
    budget: u32,
    sheet: &Sheet,
) -> Result<Option<Finding>, WantOfMemory>
    ensures { IfOk result (FoundBy (IsCoarseMeasure sheet.now budget)) }
{
    let raised = coarse_up(alloc, sheet)?;
    let first = first_run(alloc, tableau, budget, &raised)?;
    match first.ran {
        Ran::Open(_) => Ok(None),
        Ran::AtBest(_) => measure_at_level_zero(alloc, tableau, &raised, &first.classes),
    }
}

/// The stakes in a direction, as large as the limits let them be, if the separate checker says yes to them.
fn stakes_in_direction(
    alloc: Global,
    sheet: &Sheet,
    direction: &[u64],
) -> Result<Option<Finding>, WantOfMemory>
    requires each { length direction.now ≡ length sheet.now }
    requires some { HasSome direction.now }
    ensures { IfOk result (FoundBy (AreStakesInDirection sheet.now direction.now)) }
{
    let stakes = scaled_floors(alloc, sheet.offers(), direction)?;
    let finding = Finding::Arb(stakes);
    if says_yes(sheet, &finding) {
        return Ok(Some(finding));
    }
    Ok(None)
}

/// The stakes of the best tableau of the first run with odds rounded down, at level 1.
fn stakes_at_level_one(
    alloc: Global,
    tableau: &Tableau,
    sheet: &Sheet,
    coarse: &Coarse,
    classes: &ClassList,
    leading: &OfferList,
) -> Result<Option<Finding>, WantOfMemory>
    requires lowered { coarse.now.sheet ≡ lowered_offers sheet.now }
    requires from { coarse.now.from ≡ kept_numbers sheet.now }
    requires classes { classes.now ≡ classes_of coarse.now.sheet }
    requires leading { leading.now ≡ map (λ offer. offer.0) (leading_offers coarse.now.sheet classes.now) }
    requires best { IsAtBest (first_program coarse.now.sheet) tableau.now }
    ensures { IfOk result (FoundBy (AreStakesAt sheet.now tableau.now)) }
{
    if !has_level_one(tableau) {
        return Ok(None);
    }
    match read_direction(alloc, tableau, &coarse.sheet, classes, leading) {
        Ok(direction) => {
            let count = sheet.offers().len();
            let items = coarse.from.with_zeros(alloc, direction.items(), count)?;
            stakes_in_direction(alloc, sheet, &items)
        }
        Err(ReadingFault::Wide(_)) => Ok(None),
        Err(ReadingFault::WantOfMemory) => Err(WantOfMemory),
    }
}

/// The stakes that are found with odds rounded down.
fn coarse_stakes(
    alloc: Global,
    tableau: &mut Tableau,
    budget: u32,
    sheet: &Sheet,
) -> Result<Option<Finding>, WantOfMemory>
    ensures { IfOk result (FoundBy (AreCoarseStakes sheet.now budget)) }
{
    let coarse = coarse_down(alloc, sheet)?;
    let first = first_run(alloc, tableau, budget, &coarse.sheet)?;
    match first.ran {
        Ran::Open(_) => Ok(None),
        Ran::AtBest(_) => stakes_at_level_one(
            alloc,
            tableau,
            sheet,
            &coarse,
            &first.classes,
            &first.leading,
        ),
    }
}

/// The coarse verdict of a sheet with a budget for each run, if there is one.
pub fn found_with_coarse_odds(
    alloc: Global,
    tableau: &mut Tableau,
    budget: u32,
    sheet: &Sheet,
) -> Result<Option<Finding>, WantOfMemory>
    ensures { IfOk result (FoundBy (IsCoarseVerdict sheet.now budget)) }
{
    match coarse_measure(alloc, tableau, budget, sheet)? {
        Some(finding) => Ok(Some(finding)),
        None => coarse_stakes(alloc, tableau, budget, sheet),
    }
}
