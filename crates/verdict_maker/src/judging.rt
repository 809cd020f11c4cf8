// The six steps, from the last to the first.
ghost use Rattle.std.specs.Prelude.{◌≡◌, length, map, IfOk};
ghost use Rattle.settlement_definitions.specs.Classes.{classes_of};
ghost use Rattle.judging_definitions.specs.Columns.{leading_offers};
ghost use Rattle.judging_definitions.specs.JudgingPrograms.{limited_program, slack_need};
ghost use Rattle.judging_definitions.specs.ExactFinding.{IsExactFinding, IsFoundInDirection, IsFoundBySlackRun, IsFoundByPlainRun};
ghost use Rattle.judging_definitions.specs.FirstRun.{first_program};
ghost use Rattle.judging_laws.specs.Laws.{IsAtBest};
ghost use Rattle.verdict_maker.specs.Turns.{FromKept, AfterFirst, AfterSlack, HasSome};

use crate::first_run::{FirstRun, first_run};
use crate::runs::{Ran, run_program};
use crate::scaling::scaled_floors;
use crate::turns::{after_plain_run, says_yes, unread};
use coherence_lp::{
    Needs, OfferList, has_level_one, limited, read_direction, read_floors, read_measure,
};
use finding_definitions::{Finding, Measure, Parts, Stage};
use fraction_tableau::Tableau;
use scan_types::{Sheet, WantOfMemory};
use settle_classes::ClassList;
use std::alloc::Global;

/// Step 5: the program with limits and no slack.
fn found_by_plain_run(
    alloc: Global,
    tableau: &mut Tableau,
    budget: u32,
    sheet: &Sheet,
    classes: &ClassList,
    direction: Parts,
    slack_measure: Measure,
) -> Result<Finding, WantOfMemory>
    requires { classes.now ≡ classes_of sheet.now }
    ensures { IfOk result (IsFoundByPlainRun sheet.now budget direction slack_measure) }
{
    let program = limited(alloc, sheet, classes, Needs::Plain)?;
    let ran = run_program(tableau, budget, &program, Stage::Plain)?;
    match ran {
        Ran::Open(finding) => Ok(finding),
        Ran::AtBest(pivots) => after_plain_run(
            alloc,
            tableau,
            sheet,
            classes,
            pivots,
            direction,
            slack_measure,
        ),
    }
}

/// What follows from the best tableau of the run with slack.
fn after_slack_run(
    alloc: Global,
    tableau: &mut Tableau,
    budget: u32,
    sheet: &Sheet,
    classes: &ClassList,
    pivots: u32,
    direction: Parts,
) -> Result<Finding, WantOfMemory>
    requires classes { classes.now ≡ classes_of sheet.now }
    requires best { IsAtBest (limited_program (classes_of sheet.now) sheet.now (slack_need sheet.now)) tableau.old }
    ensures { IfOk result (FromKept tableau.old (AfterSlack sheet.now budget direction pivots)) }
{
    if has_level_one(tableau) {
        let stakes = read_floors(alloc, tableau, sheet, classes)?;
        return Ok(Finding::Arb(stakes));
    }
    match read_measure(alloc, tableau, classes) {
        Ok(measure) => {
            found_by_plain_run(alloc, tableau, budget, sheet, classes, direction, measure)
        }
        Err(fault) => unread(fault, Stage::Slack, pivots),
    }
}

/// Step 4: the program with limits and slack.
fn found_by_slack_run(
    alloc: Global,
    tableau: &mut Tableau,
    budget: u32,
    sheet: &Sheet,
    classes: &ClassList,
    direction: Parts,
) -> Result<Finding, WantOfMemory>
    requires { classes.now ≡ classes_of sheet.now }
    ensures { IfOk result (IsFoundBySlackRun sheet.now budget direction) }
{
    let program = limited(alloc, sheet, classes, Needs::Slack)?;
    let ran = run_program(tableau, budget, &program, Stage::Slack)?;
    match ran {
        Ran::Open(finding) => Ok(finding),
        Ran::AtBest(pivots) => {
            after_slack_run(alloc, tableau, budget, sheet, classes, pivots, direction)
        }
    }
}

/// Step 3: stakes in the direction, as large as the limits let them be, if they are an arbitrage.
fn found_in_direction(
    alloc: Global,
    tableau: &mut Tableau,
    budget: u32,
    sheet: &Sheet,
    classes: &ClassList,
    direction: Parts,
) -> Result<Finding, WantOfMemory>
    requires classes { classes.now ≡ classes_of sheet.now }
    requires each { length direction.parts ≡ length sheet.now }
    requires some { HasSome direction.parts }
    ensures { IfOk result (IsFoundInDirection sheet.now budget direction) }
{
    let stakes = scaled_floors(alloc, sheet.offers(), direction.items())?;
    let finding = Finding::Arb(stakes);
    if says_yes(sheet, &finding) {
        return Ok(finding);
    }
    found_by_slack_run(alloc, tableau, budget, sheet, classes, direction)
}

/// Step 2, or the reading of a direction.
fn after_first_run(
    alloc: Global,
    tableau: &mut Tableau,
    budget: u32,
    sheet: &Sheet,
    classes: &ClassList,
    leading: &OfferList,
    pivots: u32,
) -> Result<Finding, WantOfMemory>
    requires classes { classes.now ≡ classes_of sheet.now }
    requires leading { leading.now ≡ map (λ offer. offer.0) (leading_offers sheet.now classes.now) }
    requires best { IsAtBest (first_program sheet.now) tableau.old }
    ensures { IfOk result (FromKept tableau.old (AfterFirst sheet.now budget pivots)) }
{
    if !has_level_one(tableau) {
        return match read_measure(alloc, tableau, classes) {
            Ok(measure) => Ok(Finding::Coherent(measure)),
            Err(fault) => unread(fault, Stage::First, pivots),
        };
    }
    match read_direction(alloc, tableau, sheet, classes, leading) {
        Ok(direction) => found_in_direction(alloc, tableau, budget, sheet, classes, direction),
        Err(fault) => unread(fault, Stage::First, pivots),
    }
}

/// The finding of a sheet with a budget for each run. Step 1 is the program without limits.
pub fn exact_finding(
    alloc: Global,
    tableau: &mut Tableau,
    budget: u32,
    sheet: &Sheet,
) -> Result<Finding, WantOfMemory>
    ensures { IfOk result (IsExactFinding sheet.now budget) }
{
    let FirstRun {
        classes,
        leading,
        ran,
    } = first_run(alloc, tableau, budget, sheet)?;
    match ran {
        Ran::Open(finding) => Ok(finding),
        Ran::AtBest(pivots) => {
            after_first_run(alloc, tableau, budget, sheet, &classes, &leading, pivots)
        }
    }
}
