ghost use Rattle.std.specs.Prelude.{◌≡◌, ◌+◌, ◌<◌, ◌≤◌, ◌++◌, ◌∷◌, [], length, map, replicate, slice_index, pos, ◌<ℤ◌, OnOk, OnErr, IfSome, IfNone, vec_len, vec_capacity};
ghost use Rattle.std.specs.List.{Contains, range_with_len};
ghost use Rattle.row_definitions.specs.Rows.{entry};
ghost use Rattle.row_pool.specs.Pools.{zeros};
ghost use Rattle.pivot_definitions.specs.Programs.{IsWithinLimits};
ghost use Rattle.pivot_definitions.specs.Tableaus.{entry_at, HasFittingEntries, HasPrimitiveRows};
ghost use Rattle.condensed_laws.specs.Heads.{place_by, places};
ghost use Rattle.condensed_laws.specs.Tableaus.{IsSound, expanded, condensed_pivot, condensed_built, condensed_built_row, condensed_built_objective};
ghost use Rattle.fraction_tableau.specs.Condensed.{empty_condensed, CondensedFits, CondensedPassesFirst};
ghost use Rattle.pivot_definitions.specs.declared.limits.TheConstants.{MOST_COLUMNS, MOST_ROWS};

use crate::lent::{combine_others, first_place};
use crate::pivot::Passed2;
use crate::program::Program;
use crate::rows::Rows;
use std::alloc::Global;
use std::marker::Model;
use want_of_memory::WantOfMemory;

// A tableau whose rows are kept without the columns that are basic in other rows, where they are 0. Each column has a head:
// its place in the rows, or the number of columns and the row in which it is basic.
#[derive(Debug, Drop)]
pub(crate) struct Condensed {
    pub(crate) columns: u32,
    pub(crate) rows: Rows,
    pub(crate) basis: Vec<u32>,
    pub(crate) heads: Vec<u32>,
}

impl Model for Condensed {
    ghost use Rattle.condensed_laws.specs.Tableaus.{CondensedTableau};
    ghost use Rattle.fraction_tableau.specs.Condensed.{IsSoundOrEmpty};

    ghost Value = { CondensedTableau };

    ghost view = { λ t. record { columns = t.columns; rows = t.rows; basis = t.basis.items; heads = t.heads.items } };

    ghost invariant = { λ t. IsSoundOrEmpty (record { columns = t.columns; rows = t.rows; basis = t.basis.items; heads = t.heads.items }) };
}

impl Condensed {
    // An empty tableau. Takes no memory.
    pub(crate) fn empty(alloc: Global) -> Condensed
        ensures { result ≡ empty_condensed }
    {
        Condensed {
            columns: 0,
            rows: Rows::new(alloc),
            basis: Vec::new(alloc),
            heads: Vec::new(alloc),
        }
    }

    // Makes it empty. Its room stays.
    fn clear(&mut self)
        ensures { self.new ≡ empty_condensed }
    {
        self.columns = 0;
        self.rows.clear();
        self.basis.clear();
        self.heads.clear();
    }

    // Makes it the tableau of a program as built. Takes no memory if it had room for a program of as many rows and numbers
    // before. If no memory is left, it is empty.
    pub(crate) fn rebuild(&mut self, program: &Program) -> Result<(), WantOfMemory>
        ensures ok { OnOk result (self.new ≡ condensed_built program.now) }
        ensures err { OnErr result (self.new ≡ empty_condensed) }

        ensures limits { IsWithinLimits program.now }
    {
        let columns = program.columns();
        let count = program.rows();
        self.clear();
        self.basis.reserve_exact(count as usize)?;
        self.heads.reserve_exact(columns as usize + count as usize)?;
        self.rows.remake(count + 1, columns + 3)?;
        fill_rows(&mut self.rows, program);
        push_range(&mut self.basis, columns, count);
        push_range(&mut self.heads, 0, columns + count);
        self.columns = columns;
        Ok(())
    }

    // How many columns the program has.
    pub(crate) fn columns(&self) -> u32
        ensures value { result ≡ self.now.columns }
        ensures few { result ≤ MOST_COLUMNS }
        ensures sound { 0 < result → IsSound self.now }
    {
        self.columns
    }

    // How many rows the program has.
    pub(crate) fn rows(&self) -> u32
        ensures value { result ≡ length self.now.basis }
        ensures few { result ≤ MOST_ROWS }
        ensures sound { 0 < result → IsSound self.now }
    {
        self.basis.len() as u32
    }

    // The column that is basic in a row.
    pub(crate) fn basic(&self, row: u32) -> u32
        requires { row < length self.now.basis }
        ensures value { result ≡ slice_index self.now.basis row }
        ensures within { result < length self.now.heads }
    {
        self.basis[row as usize]
    }

    // The columns that are basic, row by row.
    pub(crate) fn basis(&self) -> &[u32]
        ensures value { result.now ≡ self.now.basis }
        ensures few { length result.now ≤ MOST_ROWS }
    {
        self.basis.as_slice()
    }

    // The entry of a row in a column; the objective row is the last, and the right side the last column.
    pub(crate) fn entry(&self, row: u32, column: u32) -> i128
        requires some { 0 < length self.now.heads }
        requires row { row < length self.now.basis + 1 }
        requires column { column < length self.now.heads + 1 }
        ensures { result ≡ entry_at (expanded self.now) row column }
    {
        number_at(self.rows.row(row as usize), self.place(row, column))
    }

    // The place of a column in a row.
    fn place(&self, row: u32, column: u32) -> usize
        requires row { row < length self.now.basis + 1 }
        requires column { column < length self.now.heads + 1 }
        ensures { result ≡ slice_index (places self.now.columns row self.now.heads) column }
    {
        match self.heads.get(column as usize) {
            Some(head) => place_in(self.columns, row, *head),
            None => self.columns as usize,
        }
    }

    // The first place at which a pivot passes 128 bits. The tableau stays as it is; the pivot row is lent meanwhile.
    pub(crate) fn first_passing(&mut self, row: u32, column: u32) -> Option<Passed2>
        requires row { row < length self.old.basis }
        requires column { column < length self.old.heads }
        requires not_basic { ¬ Contains self.old.basis column }
        requires positive { pos 0 <ℤ entry_at (expanded self.old) row column }
        requires fits { HasFittingEntries (expanded self.old) }
        requires primitive { HasPrimitiveRows (expanded self.old) }
        ensures some { IfSome result (λ place. CondensedPassesFirst self.old row column place.row place.column) }
        ensures none { IfNone result (CondensedFits self.old row column) }
        ensures unchanged { self.new ≡ self.old }
    {
        let pivot = row as usize;
        let place = self.heads[column as usize] as usize;
        let width = self.columns as usize;
        self.rows.swap(pivot, width + 2, width + 1);
        let passing = first_place(&self.rows, &self.heads, self.columns, pivot, place);
        self.rows.swap(pivot, width + 2, width + 1);
        passing
    }

    // Makes a column basic in a row, where that passes 128 bits nowhere.
    pub(crate) fn pivot(&mut self, row: u32, column: u32)
        requires row { row < length self.old.basis }
        requires column { column < length self.old.heads }
        requires not_basic { ¬ Contains self.old.basis column }
        requires positive { pos 0 <ℤ entry_at (expanded self.old) row column }
        requires fits { HasFittingEntries (expanded self.old) }
        requires primitive { HasPrimitiveRows (expanded self.old) }
        requires passes_nowhere { CondensedFits self.old row column }
        ensures { self.new ≡ condensed_pivot self.old row column }
    {
        let pivot = row as usize;
        let place = self.heads[column as usize];
        let leaving = self.basis[pivot] as usize;
        let width = self.columns as usize;
        self.rows.swap(pivot, width + 2, width + 1);
        combine_others(&mut self.rows, width, pivot, place as usize);
        self.rows.swap(pivot, width + 2, width + 1);
        self.rows.swap(pivot, place as usize, width + 1);
        self.heads[leaving] = place;
        self.heads[column as usize] = self.columns + row;
        self.basis[pivot] = column;
    }
}

// The place in a row of a column by its head.
fn place_in(width: u32, row: u32, head: u32) -> usize
    requires few_columns { width ≤ MOST_COLUMNS }
    requires row { row < MOST_ROWS + 1 }
    ensures { result ≡ place_by width row head }
{
    if head < width {
        head as usize
    } else if head == width + row {
        width as usize + 1
    } else {
        width as usize + 3
    }
}

// A number of a row, and 0 past its end.
fn number_at(numbers: &[i128], place: usize) -> i128
    ensures { result ≡ entry numbers.now place }
{
    match numbers.get(place) {
        Some(number) => *number,
        None => 0,
    }
}

// Writes the rows of a program as built into rows of zeros.
fn fill_rows(rows: &mut Rows, program: &Program)
    requires { rows.old ≡ replicate (program.now.rows + 1) (zeros (program.now.columns + 3)) }
    ensures { rows.new ≡ map (condensed_built_row program.now) (range_with_len 0 program.now.rows) ++ condensed_built_objective program.now ∷ [] }
{
    let columns = program.columns() as usize;
    let count = program.rows() as usize;
    for row in 0..count {
        let start = row * columns;
        rows.fill(
            row,
            &program.coefs()[start..start + columns],
            program.right()[row],
        );
    }
    rows.put(count, 0, 1);
}

// Pushes so many numbers that rise by 1.
fn push_range(numbers: &mut Vec<u32>, first: u32, count: u32)
    requires room { vec_len numbers.old + count ≤ vec_capacity numbers.old }
    requires few { first + count ≤ MOST_COLUMNS + MOST_ROWS }
    ensures { numbers.new.items ≡ numbers.old.items ++ range_with_len first count }
{
    for more in 0..count {
        push_one(numbers, first + more);
    }
}

fn push_one(numbers: &mut Vec<u32>, number: u32)
    requires { vec_len numbers.old < vec_capacity numbers.old }
    ensures items { numbers.new.items ≡ numbers.old.items ++ number ∷ [] }
    ensures capacity { vec_capacity numbers.old ≤ vec_capacity numbers.new }
{
    let pushed = numbers.push(number);
    prove!(pushed.is_ok());
}
