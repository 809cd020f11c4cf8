ghost use Rattle.std.specs.Prelude.{◌≡◌, ◌+◌, ◌<◌, ◌≤◌, ◌↔◌, length, ◌==◌, IfOk, OnOk, OnErr, IfSome, IsTrue, position};
ghost use Rattle.std.specs.List.{Contains};
ghost use Rattle.row_definitions.specs.Combination.{FitsEntry};
ghost use Rattle.pivot_definitions.specs.Tableaus.{IsKeptTableau, column_count, entry_at, right_side, objective, basic_column, multiplier_of, IsValueOf, built, empty_tableau};
ghost use Rattle.pivot_definitions.specs.declared.limits.TheConstants.{MOST_COLUMNS, MOST_ROWS};

use crate::condensed::Condensed;
use crate::program::Program;
use std::alloc::Global;
use std::marker::Model;
use want_of_memory::WantOfMemory;

/// A simplex tableau: a row for each row of the program, and the objective row, over the program's columns, a slack
/// column for each row, and the right side. Each row is divided by the greatest common divisor of its entries. An empty
/// tableau has no columns and no rows.
#[derive(Debug, Drop)]
pub struct Tableau {
    pub(crate) condensed: Condensed,
}

impl Model for Tableau {
    ghost use Rattle.pivot_definitions.specs.Tableaus.{SimplexTableau};
    ghost use Rattle.condensed_laws.specs.Tableaus.{expanded};
    ghost use Rattle.fraction_tableau.specs.Kept.{StandsForKept};

    ghost Value = { SimplexTableau };

    ghost view = { λ t. expanded t.condensed };

    ghost invariant = { λ t. StandsForKept t.condensed };
}

impl Tableau {
    /// An empty tableau. Takes no memory.
    pub fn empty(alloc: Global) -> Tableau
        ensures { result ≡ empty_tableau }
    {
        Tableau {
            condensed: Condensed::empty(alloc),
        }
    }

    /// The tableau of a program as built: the slack columns are basic. Takes memory for a number a place.
    pub fn build(alloc: Global, program: &Program) -> Result<Tableau, WantOfMemory>
        ensures { IfOk result (λ tableau. tableau ≡ built program.now) }
    {
        let mut tableau = Tableau::empty(alloc);
        tableau.rebuild(program)?;
        Ok(tableau)
    }

    /// Makes it the tableau of a program as built, whatever it was before. It is empty if no memory is left. Takes memory
    /// for a number a place, and none if it had room for a program of as many rows and columns before.
    pub fn rebuild(&mut self, program: &Program) -> Result<(), WantOfMemory>
        ensures ok { OnOk result (self.new ≡ built program.now) }
        ensures err { OnErr result (self.new ≡ empty_tableau) }
    {
        self.condensed.rebuild(program)?;
        Ok(())
    }

    /// How many columns the program has: from 1 to 2,048, and 0 where the tableau is empty.
    pub fn columns(&self) -> u32
        ensures value { result ≡ self.now.columns }
        ensures few { result ≤ MOST_COLUMNS }
        // Every tableau that is not empty is one in kept and canonical form.
        ensures kept { 0 < result → IsKeptTableau self.now }
    {
        self.condensed.columns()
    }

    /// How many rows the program has, which is how many constraint rows there are: from 1 to 2,048, and 0 where the tableau
    /// is empty.
    pub fn rows(&self) -> u32
        ensures value { result ≡ length self.now.basis }
        ensures few { result ≤ MOST_ROWS }
        // Every tableau that is not empty is one in kept and canonical form.
        ensures kept { 0 < result → IsKeptTableau self.now }
    {
        self.condensed.rows()
    }

    /// The column that is basic in a row of the program.
    pub fn basic(&self, row: u32) -> u32
        requires { row < length self.now.basis }
        ensures value { result ≡ basic_column self.now row }
        ensures within { result < column_count self.now }
    {
        self.condensed.basic(row)
    }

    /// The entry of a row in a column; the objective row is the last, and the right side the last column. The tableau is not
    /// empty.
    pub fn entry(&self, row: u32, column: u32) -> i128
        requires some { 0 < column_count self.now }
        requires row { row < length self.now.basis + 1 }
        requires column { column < column_count self.now + 1 }
        ensures value { result ≡ entry_at self.now row column }
        ensures fits { FitsEntry result }
    {
        self.condensed.entry(row, column)
    }

    /// The right side of a row of the program.
    pub fn right_side(&self, row: u32) -> i128
        requires { row < length self.now.basis }
        ensures value { result ≡ right_side self.now row }
        ensures fits { FitsEntry result }
    {
        self.entry(row, self.columns() + self.rows())
    }

    /// The entry of the objective row in a column. The tableau is not empty.
    pub fn objective(&self, column: u32) -> i128
        requires some { 0 < column_count self.now }
        requires column { column < column_count self.now + 1 }
        ensures value { result ≡ objective self.now column }
        ensures fits { FitsEntry result }
    {
        self.entry(self.rows(), column)
    }

    /// The value of a column in the basic solution as a fraction: the right side and the entry of the row in which the
    /// column is basic, or 0 and 1 where it is basic in none.
    pub fn value(&self, column: u32) -> (i128, i128)
        requires { column < column_count self.now }
        ensures { IsValueOf self.now column result }
    {
        match self.row_of(column) {
            Some(row) => (self.right_side(row as u32), self.entry(row as u32, column)),
            None => (0, 1),
        }
    }

    // The row in which a column is basic.
    fn row_of(&self, column: u32) -> Option<usize>
        ensures value { result ≡ position (λ basic. basic == column) self.now.basis }
        ensures within { IfSome result (λ row. row < length self.now.basis) }
        ensures few { length self.now.basis ≤ MOST_ROWS }
    {
        self.condensed
            .basis()
            .iter()
            .position(|basic| *basic == column)
    }

    /// Whether a column is basic in some row.
    pub fn is_basic(&self, column: u32) -> bool
        ensures { IsTrue result ↔ Contains self.now.basis column }
    {
        self.condensed.basis().contains(&column)
    }

    /// The multiplier of a row of the program: the negative of the objective row's entry in the row's slack column.
    pub fn multiplier(&self, row: u32) -> i128
        requires { row < length self.now.basis }
        ensures { result ≡ multiplier_of self.now row }
    {
        -self.objective(self.columns() + row)
    }
}
