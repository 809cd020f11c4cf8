ghost use Rattle.std.specs.Prelude.{◌≡◌, ◌<◌, ◌↔◌, length, pos, ◌≤ℤ◌, IsTrue};
ghost use Rattle.std.specs.List.{All};
ghost use Rattle.row_definitions.specs.Combination.{FitsEntry};
ghost use Rattle.pivot_definitions.specs.Programs.{LinearProgram, IsWithinLimits, IsCapped, unit_row};

use pivot_definitions::limits::{MOST_COLUMNS, MOST_ROWS};
use std::marker::Model;

/// A linear program in whole numbers: each row's sum of coefficient times column is at most its right side, no column is
/// below 0, and column 0 is to be as large as possible.
#[derive(Debug, Drop)]
pub struct Program {
    columns: u32,
    rows: u32,
    coefs: Vec<i128>,
    right: Vec<i128>,
}

impl Model for Program {
    ghost use Rattle.pivot_definitions.specs.Programs.{LinearProgram, IsWithinLimits};

    ghost Value = { LinearProgram };

    ghost view = { λ p. record { columns = p.columns; rows = p.rows; coefficients = p.coefs.items; right_sides = p.right.items } };

    ghost invariant = { λ p. IsWithinLimits (record { columns = p.columns; rows = p.rows; coefficients = p.coefs.items; right_sides = p.right.items }) };
}

impl Program {
    /// Whether these make a program: there are from 1 to 2,048 columns and rows, a coefficient for each place and a right
    /// side for each row; no right side is negative, and no number is the least `i128`.
    pub fn fits(columns: u32, rows: u32, coefs: &[i128], right: &[i128]) -> bool
        ensures { IsTrue result ↔ IsWithinLimits (record { columns = columns; rows = rows; coefficients = coefs.now; right_sides = right.now }) }
    {
        columns > 0
            && columns <= MOST_COLUMNS
            && rows > 0
            && rows <= MOST_ROWS
            && coefs.len() == columns as usize * rows as usize
            && right.len() == rows as usize
            && fit_entries(coefs)
            && fit_entries(right)
            && are_not_negative(right)
    }

    /// The program of these coefficients, row by row, and right sides, which fit. Takes no memory.
    pub fn of(columns: u32, rows: u32, coefs: Vec<i128>, right: Vec<i128>) -> Program
        requires { IsWithinLimits (record { columns = columns; rows = rows; coefficients = coefs.items; right_sides = right.items }) }
        ensures { result ≡ record { columns = columns; rows = rows; coefficients = coefs.items; right_sides = right.items } }
    {
        Program {
            columns,
            rows,
            coefs,
            right,
        }
    }

    /// Whether the last row caps column 0: 1 in column 0, 0 elsewhere, and the right side 1.
    pub fn is_capped(&self) -> bool
        ensures { IsTrue result ↔ IsCapped self.now }
    {
        let last = self.rows as usize - 1;
        let start = last * self.columns as usize;
        self.right[last] == 1 && is_unit(&self.coefs[start..start + self.columns as usize])
    }

    /// How many columns it has.
    pub fn columns(&self) -> u32
        ensures value { result ≡ self.now.columns }
        ensures limits { IsWithinLimits self.now }
    {
        self.columns
    }

    /// How many rows it has.
    pub fn rows(&self) -> u32
        ensures value { result ≡ self.now.rows }
        ensures limits { IsWithinLimits self.now }
    {
        self.rows
    }

    /// The coefficients, row by row.
    pub fn coefs(&self) -> &[i128]
        ensures { result.now ≡ self.now.coefficients }
    {
        self.coefs.as_slice()
    }

    /// The right side of each row.
    pub fn right(&self) -> &[i128]
        ensures { result.now ≡ self.now.right_sides }
    {
        self.right.as_slice()
    }
}

// Whether the numbers are entries' numbers.
fn fit_entries(numbers: &[i128]) -> bool
    ensures { IsTrue result ↔ All FitsEntry numbers.now }
{
    numbers.iter().all(|x| *x != i128::MIN)
}

// Whether no number is negative.
fn are_not_negative(numbers: &[i128]) -> bool
    ensures { IsTrue result ↔ All (λ x. pos 0 ≤ℤ x) numbers.now }
{
    numbers.iter().all(|x| *x >= 0)
}

// Whether the row is 1 in column 0 and 0 elsewhere.
fn is_unit(row: &[i128]) -> bool
    requires { 0 < length row.now }
    ensures { IsTrue result ↔ (row.now ≡ unit_row (length row.now) 0) }
{
    row[0] == 1 && are_zero(&row[1..])
}

fn are_zero(numbers: &[i128]) -> bool
    ensures { IsTrue result ↔ All (λ x. x ≡ pos 0) numbers.now }
{
    numbers.iter().all(|x| *x == 0)
}
