//! What follows from the definition of the answers, as the contract of a function that does nothing.

ghost use Rattle.cert_checker.specs.Laws.{OneAnswer};

/// A sheet and a finding have at most one answer, so that the order of the tests determines it.
pub fn a_finding_has_one_answer()
    ensures { OneAnswer }
{}
