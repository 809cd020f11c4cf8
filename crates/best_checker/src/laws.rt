//! What follows from the definition of the answers, as the contract of a function that does nothing.

ghost use Rattle.best_checker.specs.Laws.{OneBestAnswer};

/// A sheet, stakes and a measure have at most one answer, so that the order of the tests determines it.
pub fn best_stakes_have_one_answer()
    ensures { OneBestAnswer }
{}
