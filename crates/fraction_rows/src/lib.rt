//! Rows of whole numbers within 128 bits: a row divided by the greatest common divisor of its entries, and the
//! combination of two rows that a pivot makes. No call takes memory.
//!
//! - `primitive`: divides a row by the greatest common divisor of its entries.
//! - `combine`: makes a row 0 in a column by adding a multiple of another, or says in which column a number passed 128
//!   bits. `first_passing` is its test and `combine_within` its work, each on its own.
//! - `common_divisor`: the greatest common divisor of two numbers.
//! - `bit_length`: how many bits the numbers of a row have. `first_passing` mostly answers by it and the two entries of the
//!   column alone, so a caller that keeps it with each row saves `combine`'s scans.
#![tactic(auto)]

mod bits;
mod combination;
mod division;
mod divisor;
mod exact;
mod writing;

pub use bits::bit_length;
pub use combination::{Passed, combine, combine_within, content_bound, first_passing, fits_at};
pub use division::primitive;
pub use divisor::common_divisor;

#[cfg(test)]
mod plain;
#[cfg(test)]
mod tests;
