ghost use Rattle.std.specs.Prelude.{◌≡◌, IfOk};
ghost use Rattle.pivot_definitions.specs.Programs.{IsProgram, IsCapped};
ghost use Rattle.verdict_maker.specs.Runs.{RanAs};

use finding_definitions::{Finding, Stage, WideAt};
use fraction_tableau::{Program, Tableau};
use pivot_rule::{RunEnd, run};
use scan_types::WantOfMemory;

/// How a run went.
#[derive(Debug, Drop)]
pub enum Ran {
    /// After so many pivots it is at its best.
    AtBest(u32),
    /// It passed 128 bits or spent its budget, and that is the finding.
    Open(Finding),
}

/// Runs the program of a stage in this tableau, whatever that was before. Takes all memory before the first pivot.
pub fn run_program(
    tableau: &mut Tableau,
    budget: u32,
    program: &Program,
    stage: Stage,
) -> Result<Ran, WantOfMemory>
    requires program { IsProgram program.now }
    requires capped { IsCapped program.now }
    ensures { IfOk result (λ ran. RanAs program.now budget stage ran tableau.new) }
{
    tableau.rebuild(program)?;
    match run(tableau, budget) {
        RunEnd::Best(pivots) => Ok(Ran::AtBest(pivots)),
        RunEnd::Wide {
            pivots,
            row,
            column,
        } => Ok(Ran::Open(Finding::Wide {
            stage,
            pivots,
            at: WideAt::Entry { row, column },
        })),
        RunEnd::OutOfPivots(pivots) => Ok(Ran::Open(Finding::OutOfPivots { stage, pivots })),
    }
}
