ghost use Rattle.pivot_definitions.specs.Tableaus.{HasSameShape};
ghost use Rattle.pivot_rule.specs.Ends.{IsCappedStart, RunEndsAs, BestIsBest, MadeFewPivots, EndIsOne};

use crate::choice::choose;
use fraction_tableau::Tableau;

/// How a run ended.
#[derive(Clone, Copy, Debug, PartialEq, Eq)]
pub enum RunEnd {
    /// After so many pivots nothing is left to choose: column 0 is as large as the program lets it be.
    Best(u32),
    /// After so many pivots the next would pass 128 bits, first in this row, the objective row being the last, and column.
    Wide {
        /// How many pivots were made: fewer than the budget.
        pivots: u32,
        /// The row of the first place, from 0 on.
        row: u32,
        /// The column of the first place, from 0 on, the right side being the last.
        column: u32,
    },
    /// As many pivots were made as the budget has, and a choice remains. They are fewer than there are ways to choose as many
    /// columns as there are rows, slack columns included.
    OutOfPivots(u32),
}

/// Pivots by Bland's rule, at most as often as the budget has it. The tableau is as built, of a program whose last row has
/// 1 in column 0, 0 elsewhere, and the right side 1. It is left as it is after the last pivot made. Takes no memory.
pub fn run(tableau: &mut Tableau, budget: u32) -> RunEnd
    requires { IsCappedStart tableau.old }
    ensures end { RunEndsAs tableau.old budget result tableau.new }
    ensures best { BestIsBest result tableau.new }
    ensures shape { HasSameShape tableau.old tableau.new }
    // Bland's rule meets no basis twice, so a budget of as many pivots as there are bases is never used up.
    ensures few_pivots { MadeFewPivots tableau.old result }
{
    for pivots in 0..budget {
        let Some(choice) = choose(tableau) else {
            return RunEnd::Best(pivots);
        };
        if let Err(place) = tableau.pivot(choice.row, choice.column) {
            return RunEnd::Wide {
                pivots,
                row: place.row,
                column: place.column,
            };
        }
    }
    match choose(tableau) {
        Some(_) => RunEnd::OutOfPivots(budget),
        None => RunEnd::Best(budget),
    }
}

/// A run from a tableau with a budget has one end.
pub fn end_law()
    ensures { EndIsOne }
{}
