//! The best stakes of a sheet by an exact program: the most that can be won for sure, with a measure that shows that it is the most.
//!
//! - `running`: `best`, one run of the program for the best stakes, and what is read at its end.
//! - `out`: what comes of it.
//!
//! One run; takes memory for its tableau before the first pivot, and for what is read from it.
#![tactic(auto)]

mod out;
mod running;

pub use out::BestOut;
pub use running::best;

#[cfg(test)]
mod tests;
