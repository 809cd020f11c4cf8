//! The quote board: the one place where quotes live. Every change is one entry of its history, and every finding names a version of it.
//!
//! - `board`: the board, which contracts see as its history and its fixed part.
//! - `part`: what never changes of a board.
//! - `shared`: the board as the state behind a turn lock.
//! - `laws`: what holds of reads in parts.
//! - `judge`: what judges a sheet under a law.
//! - `books`, `book`: what stands on each match, and since when the match is due.
//! - `held`: the sheets of live pins.
#![tactic(auto)]

mod board;
mod book;
mod books;
mod held;
mod judge;
mod laws;
mod part;
mod shared;
#[cfg(test)]
mod tests;

pub use board::Board;
pub use board_definitions::{Entry, Event, FeedStop, Key, Law, Pick, Pin};
pub use judge::Judge;
pub use laws::parts_are_the_sheet;
pub use part::BoardPart;
