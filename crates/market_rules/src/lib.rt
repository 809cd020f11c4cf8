//! How a leg of each market is settled at a score.
#![tactic(auto)]

ghost use Rattle.std.specs.Prelude.{◌≡◌, ◌≤◌};
ghost use Rattle.settlement_definitions.specs.Legs.{by_sign, win_if, lead, excess, leg_result};

use scan_types::{MOST_SCORE, Selection};
pub use settlement_definitions::LegResult;

/// Above zero wins, zero pushes, below zero loses.
fn by_sign(margin: i64) -> LegResult
    ensures { result ≡ by_sign margin }
{
    if margin > 0 {
        LegResult::Win
    } else if margin == 0 {
        LegResult::Push
    } else {
        LegResult::Lose
    }
}

/// A bet on the result has no push.
fn win_if(won: bool) -> LegResult
    ensures { result ≡ win_if won }
{
    if won { LegResult::Win } else { LegResult::Lose }
}

/// The home side's lead in quarters of a goal, with the line added to its goals.
fn lead(leg: i8, h: u64, a: u64) -> i64
    requires home { h ≤ MOST_SCORE }
    requires away { a ≤ MOST_SCORE }
    ensures { result ≡ lead leg h a }
{
    4 * h as i64 - 4 * a as i64 + i64::from(leg)
}

/// How far the goals of both sides are above the line, in quarters of a goal.
fn excess(leg: i8, h: u64, a: u64) -> i64
    requires home { h ≤ MOST_SCORE }
    requires away { a ≤ MOST_SCORE }
    ensures { result ≡ excess leg h a }
{
    4 * (h + a) as i64 - i64::from(leg)
}

/// How a leg of so many quarters is settled at `h` home and `a` away goals, each at most `MOST_SCORE`.
///
/// As books publish it. 1X2: the bet wins on its own result and loses otherwise; the leg is ignored.
/// Asian handicap: the line is added to the home side's goals for a home bet, and its negative to the
/// away side's for an away bet; the bet wins, pushes or loses as the adjusted difference is above, at
/// or below zero. Asian totals: over wins when the goals exceed the line, pushes at it and loses below
/// it, and under is the reverse.
pub fn leg_result(selection: Selection, leg: i8, h: u64, a: u64) -> LegResult
    requires home { h ≤ MOST_SCORE }
    requires away { a ≤ MOST_SCORE }
    ensures settled { result ≡ leg_result selection leg h a }
{
    match selection {
        Selection::Home => win_if(h > a),
        Selection::Draw => win_if(h == a),
        Selection::Away => win_if(h < a),
        Selection::HandicapHome(_) => by_sign(lead(leg, h, a)),
        Selection::HandicapAway(_) => by_sign(-lead(leg, h, a)),
        Selection::Over(_) => by_sign(excess(leg, h, a)),
        Selection::Under(_) => by_sign(-excess(leg, h, a)),
    }
}

#[cfg(test)]
mod tests;
