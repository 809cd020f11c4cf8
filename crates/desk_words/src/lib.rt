//! The words of the command line.
//!
//! - `program`: the program and its commands as `clap` knows them.
//! - `command`: what the words ask for, and why they are refused.
//! - `numbers`: words that are numbers.
//! - `reading`: `read_words`, from the words to a command.
//! - `laws`: words that are never refused, why words are no command, and lines of words with what they give.
//!
//! A command joins by its subcommand in `program`, its variant of `Command`, and its arm in `reading`.
//! `read_words` takes memory for `clap`'s command and its matches, and for a copy of each name: O(bytes of the words).
#![tactic(auto)]

mod command;
pub mod laws;
mod numbers;
mod program;
mod reading;

pub use command::{Command, FeedNames, WordsFault};
pub use numbers::MOST_NUMBER_DIGITS;
pub use reading::read_words;

#[cfg(test)]
mod tests;
