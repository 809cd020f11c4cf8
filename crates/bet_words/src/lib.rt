//! The words of a bet, both ways: a word as what it stands for, and the word of it. The tables stand in `bet_definitions`.
//!
//! - `rules`: how a book settles abandoned matches.
//! - `bets`: the markets, the sides of a market at a line, and a whole bet.
//! - `words`: one word.
//!
//! Each call costs time in the bytes of its text, and takes no memory.
#![tactic(auto)]

mod bets;
mod rules;
mod words;

pub use bet_definitions::{BetLine, LineKind, Market};
pub use bets::{SELECTION_BYTES, line_kind, put_selection, read_market, read_side};
pub use rules::{read_rule, rule_word};
pub use words::is_word;
