//! The simplex tableau of a linear program in whole numbers, exact within 128 bits: each row is kept divided by the
//! greatest common divisor of its entries, so signs and ratios are those of a tableau in which nothing is divided, and a
//! pivot says where a number would pass 128 bits.
//!
//! - `Program`: coefficients and right sides; the objective is column 0.
//! - `Tableau::build`, and `rebuild` of an empty or used one: the first tableau. No other call takes memory: a number for
//!   each column of the program and three more, in each row.
//! - `Tableau::pivot`: one pivot. Per row that is not 0 in the column: an overflow test (skipped if the bit lengths of both
//!   rows rule an overflow out), the combination, the division (skipped if a proved bound of the divisor is 1), and a new bit
//!   length. O(rows * columns); allocates nothing.
//! - `Tableau::basic`, `value`, `multiplier`: what a basic solution and its multipliers are read from.
//!
//! Inside, three modules stand on each other. `rows` keeps rows of numbers in one pool, with their bit lengths. `condensed`
//! is a tableau of such rows, which lack the columns that are basic in other rows, where they are 0. `tableau` is the whole
//! tableau for which that stands.
#![tactic(auto)]

mod condensed;
mod lent;
mod pivot;
mod pooled;
mod program;
mod rows;
mod tableau;

pub use pivot::Passed2;
pub use pivot_definitions::limits::{MOST_COLUMNS, MOST_ROWS};
pub use program::Program;
pub use tableau::Tableau;

#[cfg(test)]
mod tests;
