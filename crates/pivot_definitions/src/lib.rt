//! Definitions about linear programs in whole numbers, their simplex tableaus over whole numbers without bound, and runs
//! of pivots by Bland's rule. There is no code here: the definitions stand in specs/, and each function below has laws of
//! the definitions as its contract, and a body that is empty or calls the law on which it rests.
//!
//! - `Programs`: a program, and the cap that keeps column 0 at 1 or below.
//! - `Tableaus`: the tableau of a program, a pivot in which nothing is divided, the kept form, and where a pivot of kept
//!   forms passes 128 bits.
//! - `Runs`: Bland's choice, runs, and the three ends of a run.
//! - `Duality`: the multipliers and the basic solution of a tableau that a run reaches.
//! - `Feasible`: what holds of every tableau that a run reaches.
//! - `Laws`: what a kept form has of its plain tableau.
//!
//! - `kept_form_law`: a pivot of kept forms gives the kept form of the plain pivot, and both have the same choices.
//! - `run_law`: a tableau's choice is one, and so many pivots lead to one tableau.
//! - `reached_law`: a tableau that a run reaches is feasible, and no value in it is negative.
//! - `duality_law`: by the multipliers the rows bound the objective, and the basic solution reaches that bound.
#![tactic(auto)]

pub mod limits;

ghost use Rattle.pivot_definitions.specs.Laws.{KeptPivot, KeptRowsAreMultiples, SameChoices, SameBest};
ghost use Rattle.pivot_definitions.specs.Runs.{ChoiceIsOne, RunIsOne};
ghost use Rattle.pivot_definitions.specs.Feasible.{ReachedIsFeasible, ValuesAreNotNegative};
ghost use Rattle.pivot_definitions.specs.Duality.{RowsCombine, BestMultipliersBound, BasicSolutionExists, BasicSolutionSatisfies, LevelIsBound, BoundHolds};

/// The kept form of a plain pivot at a positive entry is the pivot of the kept form. Each row of a plain tableau, its right
/// side with it, is a positive multiple of its kept form's; so Bland's rule chooses the same pivots in both, and nothing is
/// left to choose in the one just where nothing is in the other.
pub fn kept_form_law()
    ensures pivot { KeptPivot }
    ensures rows { KeptRowsAreMultiples }
    ensures choices { SameChoices }
    ensures best { SameBest }
{
    row_definitions::combination_law();
}

/// Bland's rule leaves no choice, so as many pivots from one tableau lead to one tableau.
pub fn run_law()
    ensures choice { ChoiceIsOne }
    ensures run { RunIsOne }
{}

/// What holds of the kept form of each tableau that a run of a capped program reaches: its shape, its basic columns, and
/// that no right side is below 0. So the value of each column is a fraction with a numerator not below 0 and a denominator
/// above 0.
pub fn reached_law()
    ensures reached_is_feasible { ReachedIsFeasible }
    ensures values_are_not_negative { ValuesAreNotNegative }
{}

/// What a tableau of a run says of its program (linear programming duality). The rows by its multipliers, and its objective
/// row, make a positive multiple of the objective; where nothing is left to choose the multipliers are not negative, and so
/// by them the right sides bound column 0 at every solution in fractions. Some whole number of times its basic solution is
/// whole, and as many times a solution of the program; column 0 of it is what the multipliers make of the right sides.
pub fn duality_law()
    ensures rows_combine { RowsCombine }
    ensures best_multipliers_bound { BestMultipliersBound }
    ensures basic_solution_exists { BasicSolutionExists }
    ensures basic_solution_satisfies { BasicSolutionSatisfies }
    ensures level_is_bound { LevelIsBound }
    ensures bound_holds { BoundHolds }
{}
