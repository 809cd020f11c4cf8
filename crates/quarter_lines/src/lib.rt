//! The line of a bet and its two legs: a bet on a quarter line is two bets of half the stake on the neighbouring half-goal steps.
#![tactic(auto)]

ghost use Rattle.std.specs.Prelude.{◌≡◌, ◌≤ℤ◌, pos, negsuc};
ghost use Rattle.settlement_definitions.specs.Legs.{legs_of_line, line_of};

use scan_types::Selection;

/// The two legs of a line of `q` quarters of a goal, -20 to 30. Half the stake is on each.
///
/// As books publish it: a quarter line splits the stake evenly between the two nearest lines in
/// half-goal steps, as -0.25 between 0 and -0.5. A line in half-goal steps is twice itself.
pub fn legs(q: i8) -> (i8, i8)
    requires at_least { negsuc 19 ≤ℤ q }
    requires at_most { q ≤ℤ pos 30 }
    ensures split { result ≡ legs_of_line q }
{
    if q % 2 == 0 { (q, q) } else { (q - 1, q + 1) }
}

/// The line of a bet in quarters of a goal, -20 to 30; a bet on the result has none, and 0 stands for it.
pub fn line_of(selection: Selection) -> i8
    ensures line { result ≡ line_of selection }
    ensures at_least { negsuc 19 ≤ℤ result }
    ensures at_most { result ≤ℤ pos 30 }
{
    match selection {
        Selection::Home | Selection::Draw | Selection::Away => 0,
        Selection::HandicapHome(line) | Selection::HandicapAway(line) => line.quarters,
        Selection::Over(line) | Selection::Under(line) => line.quarters as i8,
    }
}

#[cfg(test)]
mod tests;
