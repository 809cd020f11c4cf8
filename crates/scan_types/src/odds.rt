ghost use Rattle.std.specs.Prelude.{◌≡◌, ◌≤◌, IfSome, IsSome, ◌↔◌};
ghost use Rattle.scan_types.specs.declared.limits.TheConstants.{LEAST_ODDS, MOST_ODDS};

use crate::limits::{LEAST_ODDS, MOST_ODDS};

/// Decimal odds in thousandths, from 1.001 to 1000.000: a winning stake returns itself times the odds.
#[derive(Clone, Copy, Debug, PartialEq, Eq, PartialOrd, Ord, Hash)]
pub struct Odds {
    /// Thousandths, 1,001 to 1,000,000.
    pub thousandths: u32,
    ghost at_least: { LEAST_ODDS ≤ thousandths },
    ghost at_most: { thousandths ≤ MOST_ODDS },
}

impl Odds {
    ghost use Rattle.scan_types.specs.Ranges.{IsOddsRange};

    /// The odds of so many thousandths, or `None` outside 1,001 to 1,000,000.
    pub fn new(thousandths: u32) -> Option<Odds>
        ensures value { IfSome result (λ odds. odds.thousandths ≡ thousandths) }
        ensures in_range { IsSome result ↔ IsOddsRange thousandths }
    {
        if (LEAST_ODDS..=MOST_ODDS).contains(&thousandths) {
            Some(Odds { thousandths })
        } else {
            None
        }
    }
}
