ghost use Rattle.judging_laws.specs.Laws.{HomogeneousIsCapped, LimitedIsCapped, LevelZeroIsCoherent, LevelOneGains, BelowLevelOneMoreIsAsked, PartsReachUnit, SlackFloorsAreArbitrage, SameLevel, SameMeasure, SameDirection, SameParts, SameFloors};
ghost use Rattle.judging_laws.specs.Laws.{RaisedMeasureIsRight, LeftOutGainNothing, LoweredStakesGainNoLess, FindingIsRight};

/// Both programs of a sheet are programs whose last row caps the level.
pub fn programs_are_capped()
    ensures homogeneous { HomogeneousIsCapped }
    ensures limited { LimitedIsCapped }
{}

/// The alternative without limits. At level 0 the measure lets no offer of the sheet gain on average, also none that does
/// not lead. At level 1 stakes in the direction gain at every final score and lose at no abandonment.
pub fn one_of_two_holds()
    ensures level_zero { LevelZeroIsCoherent }
    ensures level_one { LevelOneGains }
{}

/// The alternative with limits. Below level 1 the measure weighs what is asked for more than stakes within the limits can
/// win by it. At level 1 the parts are within the limits and reach one unit.
pub fn one_of_two_holds_within_limits()
    ensures below { BelowLevelOneMoreIsAsked }
    ensures level_one { PartsReachUnit }
{}

/// Stakes within the limits that reach one unit and the slack are an arbitrage after rounding down.
pub fn floors_with_slack_are_an_arbitrage()
    ensures { SlackFloorsAreArbitrage }
{}

/// What is read of a plain tableau is what is read of its kept form.
pub fn kept_forms_read_alike()
    ensures level { SameLevel }
    ensures measure { SameMeasure }
    ensures direction { SameDirection }
    ensures parts { SameParts }
    ensures floors { SameFloors }
{}

/// What is found with coarse odds holds for the odds of the sheet. A measure that lets no offer gain on average at odds
/// rounded up lets none gain. Stakes gain no less than at odds rounded down, with 0 on each offer that is left out.
pub fn coarse_odds_are_careful()
    ensures measure { RaisedMeasureIsRight }
    ensures left_out { LeftOutGainNothing }
    ensures stakes { LoweredStakesGainNoLess }
{}

/// A verdict that is the finding of a sheet with a budget is right, and so is a narrow finding.
pub fn findings_are_right()
    ensures { FindingIsRight }
{}
