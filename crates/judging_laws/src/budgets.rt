ghost use Rattle.judging_laws.specs.SpentRuns.{SpentRunIsShort};

/// A finding that is out of pivots made fewer than the program of its stage has bases, ways to choose as many columns as rows
/// out of all (Bland 1977). So a budget of as many pivots as the program has bases is never used up.
pub fn spent_runs_are_short()
    ensures { SpentRunIsShort }
{}
