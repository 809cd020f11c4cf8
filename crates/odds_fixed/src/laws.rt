//! What holds of the spellings themselves. Each function is empty: its clause is the law.
ghost use Rattle.odds_fixed.specs.Laws.{OddsHaveOneSpelling, HandicapsHaveOneSpelling, TotalsHaveOneSpelling, NumbersHaveOneSpelling};

/// The text that `put_odds` appends has the printed form, is read as the odds by `read_odds`, and is the only such text.
pub fn odds_have_one_spelling()
    ensures { OddsHaveOneSpelling }
{}

/// The same of `put_handicap` and `read_quarters`.
pub fn handicaps_have_one_spelling()
    ensures { HandicapsHaveOneSpelling }
{}

/// The same of `put_total` and `read_quarters`.
pub fn totals_have_one_spelling()
    ensures { TotalsHaveOneSpelling }
{}

/// The same of `put_number` and the value of a sign and decimal digits.
pub fn numbers_have_one_spelling()
    ensures { NumbersHaveOneSpelling }
{}
