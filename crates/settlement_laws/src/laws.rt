ghost use Rattle.settlement_laws.specs.Laws.{FinalTestIsExact, AlikeTestIsExact};
ghost use Rattle.settlement_laws.specs.Laws.{HighScoresByLead, HighScoresStandLast, StandInSettlesAlike, EachHasStandIn, NetAtEachOutcome, GainAtEachOutcome, EachHasClass};
ghost use Rattle.settlement_laws.specs.Laws.{NinetyEightStandIns, FiveGains, SameBetsGainAlike, RaisingOddsLowersNoGain, EachBetCanLose, SlackCoversRounding};
ghost use Rattle.settlement_laws.specs.Laws.{EqualNeeds, EqualNets, EqualGains, EqualSlacks, NetFromClasses, GainFromClasses, SlackFromClasses};

/// The test `is_final` is true exactly of the final scores. The test `settle_alike` is true exactly if
/// two outcomes settle the sheet alike.
pub fn tests_are_exact()
    ensures of_a_final_score { FinalTestIsExact }
    ensures of_alike_outcomes { AlikeTestIsExact }
{}

/// Each of the 13 scores that stand for those of eight goals or more has its lead, and eight goals, or nine if the lead is odd. They
/// are the last 13 of the 49.
pub fn high_scores_go_by_lead()
    ensures lead { HighScoresByLead }
    ensures place { HighScoresStandLast }
{}

/// A stand-in is of the kind of each outcome that it stands for, and gives each offer the same gain.
/// Outcomes range over all whole scores.
pub fn stand_in_settles_alike()
    ensures alike { StandInSettlesAlike }
    ensures among { EachHasStandIn }
{}

/// What stakes or parts win at each of the 98 stand-ins they win at every outcome.
pub fn stand_ins_suffice()
    ensures net { NetAtEachOutcome }
    ensures gain { GainAtEachOutcome }
{}

/// Each outcome has a class of its kind that gives each offer of the sheet the same gain.
pub fn each_has_class()
    ensures { EachHasClass }
{}

/// Outcomes that settle a sheet alike have equal needs, and give equal sums of nets, of parts times
/// gains and of slacks.
pub fn alike_outcomes_have_equal_sums()
    ensures needs { EqualNeeds }
    ensures nets { EqualNets }
    ensures gains { EqualGains }
    ensures slacks { EqualSlacks }
{}

/// What stakes or parts win at each class of a sheet they win at every outcome, also a multiple of the
/// need, with or without slack.
pub fn classes_suffice()
    ensures net { NetFromClasses }
    ensures gain { GainFromClasses }
    ensures slack { SlackFromClasses }
{}

/// There are 98 stand-ins.
pub fn there_are_98_stand_ins()
    ensures { NinetyEightStandIns }
{}

/// A bet is lost, half lost, given back, half won or won: the two legs of a bet never go opposite ways.
pub fn a_bet_gains_one_of_five_amounts()
    ensures { FiveGains }
{}

/// Offers of one selection and rule gain alike at the same outcomes, whatever their odds.
pub fn same_bets_gain_alike()
    ensures { SameBetsGainAlike }
{}

/// The same bet at higher odds gains at least as much at every outcome.
pub fn raising_odds_lowers_no_gain()
    ensures { RaisingOddsLowersNoGain }
{}

/// Every bet loses its whole stake at some final score.
pub fn each_bet_can_lose()
    ensures { EachBetCanLose }
{}

/// What slack is for: a fractional stake that is cut down to whole minor units wins at most its slack less.
pub fn slack_covers_rounding()
    ensures { SlackCoversRounding }
{}
