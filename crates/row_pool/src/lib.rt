//! Rows of whole numbers, all of one width, in one block that is reserved once. A row is free, or out: a `RowId` stands
//! for it then.
//!
//! - `RowPool::reserve`: makes so many free rows. No other call allocates.
//! - `RowPool::take`, `give`: give out the first free row, all 0, and take one back. O(rows + width) and O(1); to take all
//!   rows one after another is O(rows * width).
//! - `RowPool::row`, `row_mut`, `pair_mut`: read a row, or write one. O(1) beside what the closure does. A closure writes,
//!   since the kit has no proof for a `&mut` to a part of a `Vec` that is returned.
#![tactic(auto)]

mod part;
mod pool;

pub use pool::{RowId, RowPool};

#[cfg(test)]
mod tests;
