//! The top call: what the program does with the words of its command line.
//!
//! - `program`: `desk`, which reads the words and runs their command, with the theorem of the whole program.
//! - `process`: from the arguments of the process to its exit status.
//!
//! A command joins by its arm in `program` and its case in `specs/Desk`.
#![tactic(auto)]

mod process;
mod program;

pub use desk_definitions::{DeskEnd, FeedEnd, status};
pub use desk_once::once;
pub use process::exit_code;
pub use program::desk;

#[cfg(test)]
mod tests;
