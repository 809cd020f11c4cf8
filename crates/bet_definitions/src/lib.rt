//! The words of a bet, which a feed and a report share: its market, its line, its side, and how its book settles abandoned matches.
//!
//! - `market`: the markets, and the line that a bet on one has.
//! - `laws`: what is written is read back, and one text writes each of them.
//!
//! The definitions stand in `specs`: `Tables` (values that have a word each), `Bets` (the tables themselves) and `Laws` (the laws'
//! statements).
#![tactic(auto)]

mod laws;
mod market;

pub use laws::{bets_have_one_word, markets_have_one_word, rules_have_one_word};
pub use market::{BetLine, LineKind, Market};
