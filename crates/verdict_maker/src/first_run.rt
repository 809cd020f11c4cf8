// The first run of a sheet: its program without limits, over the offers that lead.
ghost use Rattle.std.specs.Prelude.{◌≡◌, map, IfOk};
ghost use Rattle.settlement_definitions.specs.Classes.{classes_of};
ghost use Rattle.judging_definitions.specs.Columns.{leading_offers};
ghost use Rattle.judging_definitions.specs.FirstRun.{first_program};
ghost use Rattle.finding_definitions.specs.declared.finding.Stage.TheVariants as stages;
ghost use Rattle.verdict_maker.specs.Runs.{RanAs};

use crate::runs::{Ran, run_program};
use coherence_lp::{OfferList, homogeneous, leading};
use finding_definitions::Stage;
use fraction_tableau::Tableau;
use scan_types::{Sheet, WantOfMemory};
use settle_classes::{ClassList, classes};
use std::alloc::Global;

/// How the first run of a sheet went, with what it takes to read its best tableau.
#[derive(Debug, Drop)]
pub struct FirstRun {
    /// The classes of the sheet.
    pub classes: ClassList,
    /// The offers that lead.
    pub leading: OfferList,
    /// How the run went.
    pub ran: Ran,
}

/// Runs the program without limits of a sheet in this tableau, whatever that was before.
pub fn first_run(
    alloc: Global,
    tableau: &mut Tableau,
    budget: u32,
    sheet: &Sheet,
) -> Result<FirstRun, WantOfMemory>
    ensures classes { IfOk result (λ first. first.classes ≡ classes_of sheet.now) }
    ensures leading { IfOk result (λ first. first.leading ≡ map (λ offer. offer.0) (leading_offers sheet.now (classes_of sheet.now))) }
    ensures ran { IfOk result (λ first. RanAs (first_program sheet.now) budget stages.First first.ran tableau.new) }
{
    let outcomes = classes(alloc, sheet)?;
    let leading = leading(alloc, sheet, &outcomes)?;
    let program = homogeneous(alloc, sheet, &outcomes, &leading)?;
    let ran = run_program(tableau, budget, &program, Stage::First)?;
    Ok(FirstRun {
        classes: outcomes,
        leading,
        ran,
    })
}
