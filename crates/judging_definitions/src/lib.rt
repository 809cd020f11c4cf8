//! What judging a sheet of offers means: its linear programs, what is read from them, and its one finding with a budget of
//! pivots. There is no code here: the definitions stand in specs/.
//!
//! - `Columns`: gains at the classes of a sheet, the divisor of an offer, and the offers that lead.
//! - `JudgingPrograms`: the program without limits, over the leading offers, and the program with limits, over all.
//! - `MostProgram`: what the program for the best stakes asks for.
//! - `CoarseOdds`: a sheet with its odds rounded up, and the offers that are left of it with odds rounded down.
//! - `FirstRun`: the run of the program without limits, with which every judgement begins.
//! - `Stakes`: fractional stakes, their common denominator, and stakes rounded down.
//! - `Readings`: the level, the measure, the direction and the parts, and where a number is too wide for them.
//! - `CoarseFinding`: the verdict that is found with coarse odds, and is one for the sheet's own.
//! - `ExactFinding`: the finding in six steps, and the finding of a sheet: the exact one, or the coarse verdict where that is
//!   wide in its first run.
//!
//! - `finding_law`: a sheet with a budget has one finding.
#![tactic(auto)]

pub mod limits;

ghost use Rattle.judging_definitions.specs.Laws.{FindingIsOne};

pub use limits::{COARSE_STEP, MOST_COMMON_DENOMINATOR};

/// A sheet with a budget has one finding: Bland's rule leaves no choice, and each reading gives one value.
pub fn finding_law()
    ensures { FindingIsOne }
{}
