//! The largest sizes of a program.

/// The most columns of a program: with as many rows, a number of a column still fits 32 bits by far.
pub const MOST_COLUMNS: u32 = 2048;

/// The most rows of a program.
pub const MOST_ROWS: u32 = 2048;
