//! What holds of the words of a bet. Each function is empty: its clause is the law.
ghost use Rattle.bet_definitions.specs.Laws.{RulesHaveOneWord, MarketsHaveOneWord, BetsHaveOneWord};

/// The word of a rule is read as the rule, and no other text is.
pub fn rules_have_one_word()
    ensures { RulesHaveOneWord }
{}

/// The word of a market is read as the market, and no other text is.
pub fn markets_have_one_word()
    ensures { MarketsHaveOneWord }
{}

/// After the word of its market and its line, the side of a bet is read as the bet, and no other text is.
pub fn bets_have_one_word()
    ensures { BetsHaveOneWord }
{}
