// What is read and decided at the best tableau of a run.
ghost use Rattle.std.specs.Prelude.{◌≡◌, IsTrue, ◌↔◌, IfOk};
ghost use Rattle.settlement_definitions.specs.Classes.{classes_of};
ghost use Rattle.finding_definitions.specs.Findings.{IsRightVerdict};
ghost use Rattle.finding_definitions.specs.declared.finding.WideAt.{WideAt};
ghost use Rattle.coherence_lp.specs.declared.fault.ReadingFault.{ReadingFault};
ghost use Rattle.judging_definitions.specs.JudgingPrograms.{limited_program, plain_need};
ghost use Rattle.judging_definitions.specs.ExactFinding.{IsFoundWithinLimits};
ghost use Rattle.judging_laws.specs.Laws.{IsAtBest};
ghost use Rattle.verdict_maker.specs.Turns.{FromKept, AfterPlain};

use cert_checker::{Answer, check};
use coherence_lp::{ReadingFault, has_level_one, read_floors, read_measure, read_parts};
use finding_definitions::{Finding, Measure, Parts, Stage};
use fraction_tableau::Tableau;
use scan_types::{Sheet, WantOfMemory};
use settle_classes::ClassList;
use std::alloc::Global;

/// Whether the separate checker says yes to the finding.
pub fn says_yes(sheet: &Sheet, finding: &Finding) -> bool
    ensures { IsTrue result ↔ IsRightVerdict sheet.now finding.now }
{
    matches!(check(sheet, finding), Answer::Yes(_))
}

/// The finding where a reading met a number that is too wide.
pub fn unread(fault: ReadingFault, stage: Stage, pivots: u32) -> Result<Finding, WantOfMemory>
    ensures { IfOk result (λ finding. (place : WideAt) × (fault ≡ ReadingFault.Wide place) × (finding ≡ Finding.Wide stage pivots place)) }
{
    match fault {
        ReadingFault::Wide(at) => Ok(Finding::Wide { stage, pivots, at }),
        ReadingFault::WantOfMemory => Err(WantOfMemory),
    }
}

/// Step 6: the stakes of the run without slack, rounded down, if they are an arbitrage, else those stakes and the measure.
fn found_within_limits(
    alloc: Global,
    tableau: &Tableau,
    sheet: &Sheet,
    classes: &ClassList,
    pivots: u32,
    slack_measure: Measure,
) -> Result<Finding, WantOfMemory>
    requires classes { classes.now ≡ classes_of sheet.now }
    requires best { IsAtBest (limited_program (classes_of sheet.now) sheet.now plain_need) tableau.now }
    ensures { IfOk result (FromKept tableau.now (λ plain. IsFoundWithinLimits sheet.now pivots plain slack_measure)) }
{
    let stakes = read_floors(alloc, tableau, sheet, classes)?;
    let finding = Finding::Arb(stakes);
    if says_yes(sheet, &finding) {
        return Ok(finding);
    }
    match read_parts(alloc, tableau, sheet, classes) {
        Ok(parts) => Ok(Finding::Narrow(parts, slack_measure)),
        Err(fault) => unread(fault, Stage::Plain, pivots),
    }
}

/// What follows from the best tableau of the run without slack.
pub fn after_plain_run(
    alloc: Global,
    tableau: &Tableau,
    sheet: &Sheet,
    classes: &ClassList,
    pivots: u32,
    direction: Parts,
    slack_measure: Measure,
) -> Result<Finding, WantOfMemory>
    requires classes { classes.now ≡ classes_of sheet.now }
    requires best { IsAtBest (limited_program (classes_of sheet.now) sheet.now plain_need) tableau.now }
    ensures { IfOk result (FromKept tableau.now (AfterPlain sheet.now direction slack_measure pivots)) }
{
    if has_level_one(tableau) {
        return found_within_limits(alloc, tableau, sheet, classes, pivots, slack_measure);
    }
    match read_measure(alloc, tableau, classes) {
        Ok(measure) => Ok(Finding::Thin(direction, measure)),
        Err(fault) => unread(fault, Stage::Plain, pivots),
    }
}
