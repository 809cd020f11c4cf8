ghost use Rattle.settlement_definitions.specs.Laws.{ResultByDifference, VoidGivesBack, DecidedStands, UndecidedPushes, GoalsDecide, TotalDecidedAboveLine, OthersStayOpen, GainInRange};

/// A bet on the result gains at every final score what it gains at 1-0, 0-0 or 0-1.
pub fn results_go_by_difference()
    ensures { ResultByDifference }
{}

/// A `void` book gives all stakes back if the match is abandoned.
pub fn void_gives_back()
    ensures { VoidGivesBack }
{}

/// Under `decided` a leg has the result that every later score gives it, and is a push if later
/// scores differ.
pub fn decided_means_every_later_score()
    ensures stands { DecidedStands }
    ensures pushes { UndecidedPushes }
{}

/// Whether every later score agrees is told by the goals: they exceed the line of an over or under leg.
pub fn goals_decide()
    ensures { GoalsDecide }
{}

/// An over or under leg is decided exactly once the goals exceed its line.
pub fn totals_are_decided_above_the_line()
    ensures { TotalDecidedAboveLine }
{}

/// No bet on the result and no handicap leg is decided before the end.
pub fn others_stay_open()
    ensures { OthersStayOpen }
{}

/// A bet loses at most its stake, and gains at most the odds less the stake.
pub fn gain_in_range()
    ensures { GainInRange }
{}
