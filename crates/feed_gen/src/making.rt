//! The lines of a feed behind its header.
ghost use Rattle.std.specs.Prelude.{◌≡◌, ◌<◌, ◌≤◌, ◌+◌, ◌*◌, [], ◌∷◌, ℕ, List, length, slice_index};
ghost use Rattle.feed_gen.specs.declared.limits.TheConstants.{CHOICES, FLAGS, MOST_MADE_MATCHES};
ghost use Rattle.feed_gen.specs.declared.made_line.MadeLine.{MadeLine};
ghost use Rattle.feed_gen.specs.Generated.{choice_at, drawn_from, line_of, stands};
ghost use Rattle.feed_gen.specs.Standing.{IsStanding};

use crate::draws::{drawn, next_state};
use crate::limits::{CHOICES, FLAGS};
use crate::made_line::MadeLine;

// The least odds of a selection, in thousandths.
fn least_odds(choice: u32) -> u32
    requires { choice < CHOICES }
    ensures value { result ≡ (choice_at choice).1 }
    ensures at_least { 1001 ≤ result }
    ensures at_most { result ≤ 3300 }
{
    match choice {
        0 => 2_050,
        1 | 2 => 3_300,
        5 => 1_850,
        _ => 1_800,
    }
}

// The place of the flag of a selection of a match.
fn place_of(match_number: u32, choice: u32) -> usize
    requires known { match_number < MOST_MADE_MATCHES }
    requires offered { choice < CHOICES }
    ensures place { result ≡ CHOICES * match_number + choice }
    ensures within { result < FLAGS }
{
    (CHOICES * match_number + choice) as usize
}

// No selection of any match stands.
pub(crate) fn none_stands() -> [bool; FLAGS]
    ensures { IsStanding result [] }
{
    [false; FLAGS]
}

// Whether a selection of a match stands.
fn stands_at(standing: &[bool; FLAGS], match_number: u32, choice: u32) -> bool
    requires known { match_number < MOST_MADE_MATCHES }
    requires offered { choice < CHOICES }
    ensures { (earlier : List MadeLine) → IsStanding standing.now earlier → result ≡ stands earlier match_number choice }
{
    standing[place_of(match_number, choice)]
}

// The line behind those that left this state and this standing, and the state that it leaves.
pub(crate) fn next_line(state: u64, matches: u32, standing: &[bool; FLAGS]) -> (MadeLine, u64)
    requires some { 0 < matches }
    requires few { matches ≤ MOST_MADE_MATCHES }
    ensures line { (earlier : List MadeLine) → IsStanding standing.now earlier → result.0 ≡ line_of (drawn_from state) matches earlier }
    ensures state { result.1 ≡ (drawn_from state).of_change }
    ensures known { result.0.match_number < MOST_MADE_MATCHES }
    ensures offered { result.0.choice < CHOICES }
    ensures odds { (1001 ≤ result.0.odds) × (result.0.odds ≤ 3500) }
{
    let of_match = next_state(state);
    let of_choice = next_state(of_match);
    let of_odds = next_state(of_choice);
    let of_limit = next_state(of_odds);
    let of_change = next_state(of_limit);
    let match_number = drawn(of_match, matches);
    let choice = drawn(of_choice, CHOICES);
    let line = MadeLine {
        match_number,
        choice,
        odds: least_odds(choice) + 10 * drawn(of_odds, 21),
        limit: 1_000 * (drawn(of_limit, 100) + 1),
        is_quote: drawn(of_change, 16) != 0 || !stands_at(standing, match_number, choice),
    };
    (line, of_change)
}

// Lets a line say whether its selection stands.
pub(crate) fn mark(standing: &mut [bool; FLAGS], line: &MadeLine)
    requires known { line.now.match_number < MOST_MADE_MATCHES }
    requires offered { line.now.choice < CHOICES }
    ensures { (earlier : List MadeLine) → IsStanding standing.old earlier → IsStanding standing.new (line.now ∷ earlier) }
{
    standing[place_of(line.match_number, line.choice)] = line.is_quote;
}
