//! Runs of pivots by Bland's rule (R. G. Bland, "New finite pivoting rules for the simplex method", 1977): of the columns
//! with a positive entry in the objective row the lowest enters, and of the rows of least ratio the one leaves whose basic
//! column is the lowest.
//!
//! - `run`: pivots until nothing is left to choose, a number would pass 128 bits, or the budget of pivots is spent. A
//!   choice costs a scan of the objective row and one of a column, and its pivot a few scans of each other row that is not 0
//!   in that column. Takes no memory.
//!
//! A program's last row caps column 0, so no run is unbounded, and no answer says that it is. No run meets a basis twice
//! (`bland_laws`), so a budget of as many pivots as there are bases is never used up. No call computes that number.
#![tactic(auto)]

mod bland;
mod choice;
mod ratio;

pub use bland::{RunEnd, end_law, run};

#[cfg(test)]
mod tests;
