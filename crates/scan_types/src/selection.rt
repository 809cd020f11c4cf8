use crate::limits::MOST_SELECTIONS;
use crate::line::{HandicapLine, TotalLine};

/// What a bet backs. Handicap lines are seen from the home side, for the away bet too.
#[derive(Clone, Copy, Debug, PartialEq, Eq, PartialOrd, Ord, Hash)]
pub enum Selection {
    /// The home side has more goals.
    Home,
    /// Both sides have the same number of goals.
    Draw,
    /// The away side has more goals.
    Away,
    /// The home side has more goals, once the line is added to its own.
    HandicapHome(HandicapLine),
    /// The away side has more goals, once the line is added to those of the home side.
    HandicapAway(HandicapLine),
    /// Both sides together have more goals than the line.
    Over(TotalLine),
    /// Both sides together have fewer goals than the line.
    Under(TotalLine),
}

impl Selection {
    ghost use Rattle.std.specs.Prelude.{◌≡◌, ◌<◌};
    ghost use Rattle.scan_types.specs.Selections.{selection_number};

    /// The place of the selection in the order of selections, 0 to 142: the variants in their order,
    /// and within a variant the line rising.
    pub fn number(self) -> u8
        ensures value { result ≡ selection_number self }
        ensures bound { result < MOST_SELECTIONS }
    {
        match self {
            Selection::Home => 0,
            Selection::Draw => 1,
            Selection::Away => 2,
            Selection::HandicapHome(line) => (i16::from(line.quarters) + 23) as u8,
            Selection::HandicapAway(line) => (i16::from(line.quarters) + 64) as u8,
            Selection::Over(line) => line.quarters + 83,
            Selection::Under(line) => line.quarters + 112,
        }
    }
}
