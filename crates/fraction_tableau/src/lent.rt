// A pivot of condensed rows, while the pivot row is lent.
ghost use Rattle.std.specs.Prelude.{◌≡◌, ◌≢◌, ℕ, ◌+◌, ◌<◌, ◌≤◌, ◌↔◌, length, slice_set, pos, IfSome, IfNone, IsTrue};
ghost use Rattle.row_definitions.specs.Rows.{entry};
ghost use Rattle.row_definitions.specs.Combination.{combined, FitsAt, PassesNowhere};
ghost use Rattle.pivot_definitions.specs.Tableaus.{others_combined};
ghost use Rattle.condensed_laws.specs.Heads.{pivot_place_by, moved};
ghost use Rattle.fraction_tableau.specs.Combinable.{Combinable};
ghost use Rattle.fraction_tableau.specs.Lent.{row_of, AreCombinable, PassNowhereBelow, FitsInColumn, ShowPassing, IsFirstRow, IsFirstColumn, IsFirstPlace};
ghost use Rattle.pivot_definitions.specs.declared.limits.TheConstants.{MOST_COLUMNS, MOST_ROWS};

use crate::pivot::Passed2;
use crate::rows::Rows;

// The first place at which the pivot passes 128 bits, rows rising, and in a row the columns. Each row is tested by the bits
// alone where they let it; only a row that passes is looked at column by column.
pub(crate) fn first_place(
    rows: &Rows,
    heads: &[u32],
    width: u32,
    pivot: usize,
    place: usize,
) -> Option<Passed2>
    requires combinable { AreCombinable rows.now width pivot place }
    requires shown { ShowPassing rows.now width heads.now pivot place }
    requires few_columns { width ≤ MOST_COLUMNS }
    requires few_rows { length rows.now ≤ MOST_ROWS + 1 }
    requires few_heads { length heads.now ≤ MOST_COLUMNS + MOST_ROWS }
    ensures some { IfSome result (λ at. IsFirstPlace rows.now width heads.now pivot place at.row at.column) }
    ensures none { IfNone result (PassNowhereBelow rows.now pivot place (length rows.now)) }
{
    let row = first_row(rows, width, pivot, place)?;
    let column = first_column(rows, heads, width, row, pivot, place);
    Some(Passed2 {
        row: row as u32,
        column: column as u32,
    })
}

// The first row whose combination with the pivot row passes 128 bits.
fn first_row(rows: &Rows, width: u32, pivot: usize, place: usize) -> Option<usize>
    requires combinable { AreCombinable rows.now width pivot place }
    ensures some { IfSome result (IsFirstRow rows.now pivot place) }
    ensures none { IfNone result (PassNowhereBelow rows.now pivot place (length rows.now)) }
{
    for other in 0..rows.len() {
        if other != pivot && rows.first_passing(other, pivot, place).is_some() {
            return Some(other);
        }
    }
    None
}

// The first column in which the combination of a row that passes somewhere does.
fn first_column(
    rows: &Rows,
    heads: &[u32],
    width: u32,
    target: usize,
    pivot: usize,
    place: usize,
) -> usize
    requires within { target < length rows.now }
    requires another { target ≢ pivot }
    requires combinable { AreCombinable rows.now width pivot place }
    requires few_columns { width ≤ MOST_COLUMNS }
    requires few_rows { length rows.now ≤ MOST_ROWS + 1 }
    requires passes { ¬ ((column : ℕ) → column < length heads.now + 1 → FitsInColumn rows.now width heads.now target pivot place column) }
    ensures { IsFirstColumn rows.now width heads.now target pivot place result }
{
    for (column, head) in heads.iter().enumerate() {
        let at = lent_place(width, target, pivot, *head);
        if !fits_in(rows, target, pivot, place, at) {
            return column;
        }
    }
    heads.len()
}

// The place in the target of a column by its head, while the pivot row's basic column leaves.
fn lent_place(width: u32, target: usize, pivot: usize, head: u32) -> usize
    requires few_columns { width ≤ MOST_COLUMNS }
    requires target { target < MOST_ROWS + 1 }
    requires pivot { pivot < MOST_ROWS + 1 }
    ensures { result ≡ pivot_place_by width target pivot head }
{
    let width = width as usize;
    let head = head as usize;
    if head < width {
        head
    } else if head == width + target {
        width + 1
    } else if head == width + pivot {
        width + 2
    } else {
        width + 3
    }
}

// Whether the combination of a row fits at a place. Past the end of the rows it does, since both are 0 there.
fn fits_in(rows: &Rows, target: usize, pivot: usize, place: usize, at: usize) -> bool
    requires target { target < length rows.now }
    requires pivot { pivot < length rows.now }
    requires combinable { Combinable (row_of rows.now target) (row_of rows.now pivot) place }
    ensures { IsTrue result ↔ FitsAt (row_of rows.now target) (row_of rows.now pivot) place at }
{
    at >= rows.row(target).len() || rows.fits_at(target, pivot, place, at)
}

// Combines each row but the pivot row with that one; the column that leaves then has the place of the one that enters.
pub(crate) fn combine_others(rows: &mut Rows, width: usize, pivot: usize, place: usize)
    requires combinable { AreCombinable rows.old width pivot place }
    requires few_columns { width ≤ MOST_COLUMNS }
    requires passes_nowhere { PassNowhereBelow rows.old pivot place (length rows.old) }
    ensures { rows.new ≡ others_combined (λ target. moved width place (combined target (row_of rows.old pivot) place)) rows.old pivot }
{
    for other in 0..rows.len() {
        if other != pivot {
            combine_one(rows, width, other, pivot, place);
        }
    }
}

// Combines one row with the pivot row.
fn combine_one(rows: &mut Rows, width: usize, target: usize, pivot: usize, place: usize)
    requires within { target < length rows.old }
    requires pivot { pivot < length rows.old }
    requires differ { target ≢ pivot }
    requires few_columns { width ≤ MOST_COLUMNS }
    requires place { place < width }
    requires count { length (row_of rows.old target) ≡ width + 3 }
    requires combinable { Combinable (row_of rows.old target) (row_of rows.old pivot) place }
    requires own { entry (row_of rows.old pivot) (width + 1) ≡ pos 0 }
    requires spare { entry (row_of rows.old target) (width + 2) ≡ pos 0 }
    requires passes_nowhere { PassesNowhere (row_of rows.old target) (row_of rows.old pivot) place }
    ensures { rows.new ≡ slice_set rows.old target (moved width place (combined (row_of rows.old target) (row_of rows.old pivot) place)) }
{
    rows.combine(target, pivot, place, width + 1, width + 2);
    rows.swap(target, place, width + 2);
}
