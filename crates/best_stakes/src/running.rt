ghost use Rattle.std.specs.Prelude.{◌≡◌, IfOk, OnErr};
ghost use Rattle.settlement_definitions.specs.Classes.{classes_of};
ghost use Rattle.finding_definitions.specs.declared.finding.WideAt.{WideAt};
ghost use Rattle.coherence_lp.specs.declared.fault.ReadingFault.{ReadingFault};
ghost use Rattle.judging_laws.specs.Laws.{IsAtBest};
ghost use Rattle.best_laws.specs.Laws.{most_program};
ghost use Rattle.best_stakes.specs.BestFound.{GainsMostOut, IsBestOf, IsRightOut, MadeFewPivots, ReadAs, ReadWith};

use crate::out::BestOut;
use coherence_lp::{Needs, ReadingFault, limited, read_measure, read_parts};
use finding_definitions::{Parts, WideAt};
use fraction_tableau::Tableau;
use pivot_rule::{RunEnd, run};
use scan_types::{Sheet, WantOfMemory};
use settle_classes::{ClassList, classes};
use std::alloc::Global;

/// The best stakes of the sheet by the program for them, with this budget of pivots, or where a number left its range, or that the
/// budget was used up. By linear programming duality the stakes are the best, and no others win more for sure. The tableau may be
/// any; if no memory is left for its rows, it is empty.
pub fn best(
    alloc: Global,
    tableau: &mut Tableau,
    budget: u32,
    sheet: &Sheet,
) -> Result<BestOut, WantOfMemory>
    ensures answer { IfOk result (IsBestOf sheet.now budget) }
    ensures right { IfOk result (IsRightOut sheet.now) }
    ensures no_more { IfOk result (GainsMostOut sheet.now) }
    // Bland's rule meets no basis twice, so a budget of as many pivots as the program has bases is never used up.
    ensures few_pivots { IfOk result (MadeFewPivots sheet.now) }
{
    run_for_best(alloc, tableau, budget, sheet)
}

// The run, and what is read at its end.
fn run_for_best(
    alloc: Global,
    tableau: &mut Tableau,
    budget: u32,
    sheet: &Sheet,
) -> Result<BestOut, WantOfMemory>
    ensures { IfOk result (IsBestOf sheet.now budget) }
{
    let outcomes = classes(alloc, sheet)?;
    let program = limited(alloc, sheet, &outcomes, Needs::Most)?;
    tableau.rebuild(&program)?;
    match run(tableau, budget) {
        RunEnd::Best(pivots) => read_best(alloc, tableau, sheet, &outcomes, pivots),
        RunEnd::Wide {
            pivots,
            row,
            column,
        } => Ok(BestOut::Wide {
            pivots,
            at: WideAt::Entry { row, column },
        }),
        RunEnd::OutOfPivots(pivots) => Ok(BestOut::OutOfPivots(pivots)),
    }
}

// The parts first, then the measure.
fn read_best(
    alloc: Global,
    tableau: &Tableau,
    sheet: &Sheet,
    classes: &ClassList,
    pivots: u32,
) -> Result<BestOut, WantOfMemory>
    requires classes { classes.now ≡ classes_of sheet.now }
    requires best { IsAtBest (most_program sheet.now) tableau.now }
    ensures { IfOk result (ReadAs sheet.now tableau.now pivots) }
{
    match read_parts(alloc, tableau, sheet, classes) {
        Ok(parts) => with_measure(alloc, tableau, sheet, classes, pivots, parts),
        Err(fault) => unread(fault, pivots),
    }
}

// The measure that goes with these parts.
fn with_measure(
    alloc: Global,
    tableau: &Tableau,
    sheet: &Sheet,
    classes: &ClassList,
    pivots: u32,
    parts: Parts,
) -> Result<BestOut, WantOfMemory>
    requires classes { classes.now ≡ classes_of sheet.now }
    requires best { IsAtBest (most_program sheet.now) tableau.now }
    ensures { IfOk result (ReadWith sheet.now tableau.now pivots parts) }
{
    match read_measure(alloc, tableau, classes) {
        Ok(measure) => Ok(BestOut::Best { parts, measure }),
        Err(fault) => unread(fault, pivots),
    }
}

// A reading met a number that is too wide.
fn unread(fault: ReadingFault, pivots: u32) -> Result<BestOut, WantOfMemory>
    ensures { IfOk result (λ out. (place : WideAt) × (fault ≡ ReadingFault.Wide place) × (out ≡ BestOut.Wide pivots place)) }
{
    match fault {
        ReadingFault::Wide(at) => Ok(BestOut::Wide { pivots, at }),
        ReadingFault::WantOfMemory => Err(WantOfMemory),
    }
}
