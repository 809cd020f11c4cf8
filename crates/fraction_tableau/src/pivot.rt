ghost use Rattle.std.specs.Prelude.{◌≡◌, ◌<◌, length, pos, ◌<ℤ◌, OnOk, OnErr, IfErr};
ghost use Rattle.std.specs.List.{Contains};
ghost use Rattle.pivot_definitions.specs.Tableaus.{column_count, entry_at, HasSameShape, IsKeptPivot, PivotFits, PivotPassesFirst};

use crate::tableau::Tableau;

/// A pivot passed 128 bits: in this row, the objective row being the last, and in this column.
#[derive(Clone, Copy, Debug, PartialEq, Eq)]
pub struct Passed2 {
    /// The row, from 0 on.
    pub row: u32,
    /// The column, from 0 on, the right side being the last.
    pub column: u32,
}

impl Tableau {
    /// Makes a column basic in a row of the program: every other row becomes 0 in the column. The row's entry there is
    /// above 0, and the column is not basic yet. Where a number would pass 128 bits, the first place is answered, rows rising with the objective row last,
    /// and the tableau stays as it was. Takes no memory.
    pub fn pivot(&mut self, row: u32, column: u32) -> Result<(), Passed2>
        requires row { row < length self.old.basis }
        requires column { column < column_count self.old }
        requires positive { pos 0 <ℤ entry_at self.old row column }
        requires not_basic { ¬ Contains self.old.basis column }

        ensures ok { OnOk result (IsKeptPivot self.old row column self.new) }
        ensures fits { OnOk result (PivotFits self.old row column) }

        ensures passes_first { IfErr result (λ place. PivotPassesFirst self.old row column place.row place.column) }
        ensures unchanged { OnErr result (self.new ≡ self.old) }

        ensures shape { HasSameShape self.old self.new }
    {
        if let Some(place) = self.condensed.first_passing(row, column) {
            return Err(place);
        }
        self.condensed.pivot(row, column);
        Ok(())
    }
}
