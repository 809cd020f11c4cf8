//! Feeds that are read onto a shared board, each in a thread of its own.
//!
//! - `body`: the body of a feed. It reads and parses with no turn held, and adds what it has in hand in one turn.
//! - `gathering`: the lines that are in hand.
//! - `turns`: single turns on the board, each of which adds lines of the feed, or its end.
#![tactic(auto)]

mod body;
mod gathering;
mod run;
mod turns;

pub use run::FeedRun;
