//! Why the program for the best stakes gives them: by linear programming duality the parts and the measure at the best end of its
//! run tie. There is no code here.
#![tactic(auto)]

ghost use Rattle.best_laws.specs.Laws.{LevelStaysBelowOne, MostProgramGivesBest};

/// The level of the program for the best stakes stays below 1, since it asks for more than the limits of all offers win together.
pub fn level_stays_below_one()
    ensures { LevelStaysBelowOne }
{}

/// The parts and the measure that are read at the best end of a run of that program are a right best of the sheet.
pub fn most_program_gives_best()
    ensures { MostProgramGivesBest }
{}
