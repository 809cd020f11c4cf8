//! Why weights on outcomes rule an arbitrage out: the easy half of Farkas' lemma, over all outcomes.
//!
//! Where no offer gains on average under the weights, no stakes on them do, in fractions or whole. Stakes
//! that win at every final score, and lose at no abandonment, would. With limits: if each offer gains at
//! most so much, no stakes within the limits win more than the limits times that.
#![tactic(auto)]

ghost use Rattle.price_duality.specs.Duality.{RulesOutUnit, RulesOutReach, RulesOutArbitrage};
ghost use Rattle.price_duality.specs.MostGain.{MeasureBoundsGain, BestGainsMost};
ghost use Rattle.price_duality.specs.Duality.{ThinRulesOutReach, ThinRulesOutArbitrage, NarrowRulesOutSlack, RightIsTrue};

/// Under a right price measure no stakes, in fractions and under any limits, win one minor unit at every
/// final score and lose nothing at any abandonment.
pub fn coherent_prices_rule_out_gain()
    ensures any_limits { RulesOutUnit }
    ensures within_limits { RulesOutReach }
{}

/// Under a right price measure no whole stakes are an arbitrage.
pub fn coherent_prices_rule_out_arbitrage()
    ensures { RulesOutArbitrage }
{}

/// Under a right `Thin` no stakes within the limits, in fractions or whole, win one minor unit at every
/// final score and lose nothing at any abandonment.
pub fn limits_rule_out_unit()
    ensures fractions { ThinRulesOutReach }
    ensures whole { ThinRulesOutArbitrage }
{}

/// Under a right `Narrow` no stakes within the limits win what is needed and what rounding may cost.
pub fn limits_rule_out_slack()
    ensures { NarrowRulesOutSlack }
{}

/// No stakes within the limits, in fractions or whole, that lose nothing at any abandonment win at every final
/// score more than a price measure allows: the limits of the offers with a gain on average, each times that gain,
/// over the weight of the final scores (weak duality).
pub fn measure_bounds_gain()
    ensures { MeasureBoundsGain }
{}

/// If the bound of the measure is the sure gain of the stakes, no others win at every final score more.
pub fn best_gains_most()
    ensures { BestGainsMost }
{}

/// A right finding is true of its sheet, in the words of stakes: under `Coherent` and `Thin` no stakes within the limits, in fractions or
/// whole, win one minor unit at every final score and lose nothing at any abandonment; under `Coherent` none do under any limits.
pub fn right_findings_are_true()
    ensures { RightIsTrue }
{}
