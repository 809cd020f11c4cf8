//! Workers that pin, judge and file on a shared board, each in a thread of its own.
//!
//! - `body`: the body of a worker, which judges what is due until every feed has ended.
//! - `asking`: one match, judged for a caller that asks for it.
//! - `ends`: how a worker ended.
//! - `post`: who is told of each judging before it begins.
//! - `judging`: the judging of the sheet of a pin, with no turn held.
//! - `sheets`: the sheet of a pin, read in parts of a turn each.
//! - `turns`: single turns on the board, each of which pins, reads a part of a sheet, files or releases.
//!
//! No judging runs during a turn, so other callers go on meanwhile.
#![tactic(auto)]

mod asking;
mod body;
mod ends;
mod judging;
mod post;
pub mod sheets;
#[cfg(test)]
mod tests;
mod turns;

pub use asking::ask;
pub use body::solver_body;
pub use ends::{SolverEnd, SolverStop};
pub use post::{Post, Quiet};
pub use quote_board::Judge;
