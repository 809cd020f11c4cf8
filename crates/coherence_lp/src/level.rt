ghost use Rattle.std.specs.Prelude.{IsTrue, ◌↔◌};
ghost use Rattle.judging_definitions.specs.Readings.{HasLevelOne};
ghost use Rattle.coherence_lp.specs.Ends.{IsBestEnd};

use crate::ratios::column_ratio;
use fraction_tableau::Tableau;

/// Whether the level of the basic solution is 1: column 0 is basic, and the right side of its row is its entry.
pub fn has_level_one(tableau: &Tableau) -> bool
    requires { IsBestEnd tableau.now }
    ensures { IsTrue result ↔ HasLevelOne tableau.now }
{
    let level = column_ratio(tableau, 0);
    level.numerator == level.denominator
}
