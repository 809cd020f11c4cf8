ghost use Rattle.std.specs.Prelude.{◌≡◌, ◌≤◌, ◌↔◌, IsTrue, IfOk, IfSome};
ghost use Rattle.scan_types.specs.declared.limits.TheConstants.{MOST_PIVOTS};
ghost use Rattle.finding_definitions.specs.Findings.{IsVerdict, IsRight, IsRightVerdict};
ghost use Rattle.judging_definitions.specs.CoarseFinding.{IsCoarseVerdict};
ghost use Rattle.judging_definitions.specs.ExactFinding.{IsWideAtFirst, IsFindingOf};
ghost use Rattle.judging_laws.specs.SpentRuns.{MadeFewPivots};
ghost use Rattle.verdict_maker.specs.Tries.{FoundBy};

use crate::coarse::found_with_coarse_odds;
use crate::judging::exact_finding;
use crate::law::FindingLaw;
use finding_definitions::{Finding, Stage};
use fraction_tableau::Tableau;
use scan_types::{MOST_PIVOTS, Sheet, WantOfMemory};
use std::alloc::Global;
use std::marker::Model;

/// A budget of pivots for each run, and the tableau that the runs use. Contracts see the budget alone.
#[derive(Debug, Drop)]
pub struct Bench {
    tableau: Tableau,
    law: FindingLaw,
}

impl Model for Bench {
    ghost use Rattle.std.specs.Prelude.{ℕ};

    ghost Value = { ℕ };

    ghost view = { λ b. b.law.budget };
}

impl Bench {
    /// A bench with this budget, 1 to `MOST_PIVOTS`. Takes no memory.
    pub fn new(alloc: Global, budget: u32) -> Bench
        requires least { 1 ≤ budget }
        requires most { budget ≤ MOST_PIVOTS }
        ensures { result ≡ budget }
    {
        Bench {
            tableau: Tableau::empty(alloc),
            law: FindingLaw { budget },
        }
    }

    /// The budget of each run.
    pub fn budget(&self) -> u32
        ensures { result ≡ self.now }
    {
        self.law.budget
    }

    /// The law of its findings: those with this budget.
    pub fn finding_law(&self) -> &FindingLaw
        ensures { result.now.budget ≡ self.now }
    {
        &self.law
    }
}

/// The coarse verdict of a sheet, with the bench's budget for each run: a measure found with odds rounded up to multiples of
/// `COARSE_STEP`, or else stakes found with odds rounded down; `None` if neither is found. Either is right for the sheet's own
/// odds. At most two runs. If no memory is left, the bench is as good as new.
pub fn coarse_verdict(
    alloc: Global,
    bench: &mut Bench,
    sheet: &Sheet,
) -> Result<Option<Finding>, WantOfMemory>
    ensures verdict { IfOk result (FoundBy (IsCoarseVerdict sheet.now bench.old)) }
    // So each verdict passes the separate checker.
    ensures passes_check { IfOk result (λ found. IfSome found (IsRightVerdict sheet.now)) }
    ensures budget_stays { bench.new ≡ bench.old }
{
    found_with_coarse_odds(alloc, &mut bench.tableau, bench.law.budget, sheet)
}

/// Whether the finding is wide in the first run, or in what is read at its end.
fn is_wide_at_first(finding: &Finding) -> bool
    ensures { IsTrue result ↔ IsWideAtFirst finding.now }
{
    matches!(
        finding,
        Finding::Wide {
            stage: Stage::First,
            ..
        }
    )
}

/// The finding of a sheet with the bench's budget for each run. By linear programming (Farkas' lemma) a verdict is right; a
/// narrow finding is right too. A sheet whose first run passes 128 bits is judged once more with coarse odds, in the same
/// tableau. If no memory is left, the bench is as good as new. Takes memory for the tableau of one run, before its first
/// pivot, and for what is read from it.
pub fn judge(alloc: Global, bench: &mut Bench, sheet: &Sheet) -> Result<Finding, WantOfMemory>
    ensures finding { IfOk result (IsFindingOf sheet.now bench.old) }
    ensures right { IfOk result (IsRight sheet.now) }
    // So each verdict passes the separate checker, which says yes just of these.
    ensures passes_check { IfOk result (λ finding. IsVerdict finding → IsRightVerdict sheet.now finding) }
    ensures budget_stays { bench.new ≡ bench.old }
    // So a budget of as many pivots as each program has bases is never used up.
    ensures few_pivots { IfOk result (MadeFewPivots sheet.now) }
{
    finding_of(alloc, &mut bench.tableau, bench.law.budget, sheet)
}

/// The finding of a sheet with a budget for each run.
fn finding_of(
    alloc: Global,
    tableau: &mut Tableau,
    budget: u32,
    sheet: &Sheet,
) -> Result<Finding, WantOfMemory>
    ensures { IfOk result (IsFindingOf sheet.now budget) }
{
    let exact = exact_finding(alloc, tableau, budget, sheet)?;
    if !is_wide_at_first(&exact) {
        return Ok(exact);
    }
    match found_with_coarse_odds(alloc, tableau, budget, sheet)? {
        Some(verdict) => Ok(verdict),
        None => Ok(exact),
    }
}
