//! Rows without the columns in which they are known to be 0. A condensed row and a list of places stand for a whole row:
//! each column shows the entry at its place, and a place past the end is 0. To combine condensed rows is to combine whole
//! ones, so a tableau need not keep the columns that are basic in other rows.
//!
//! There is no code here. The definitions stand in specs/, and each function has an empty body and a law as its contract.
//!
//! - `Wholes`: condensed rows and their whole rows.
//! - `Heads`: where a column is in a condensed row, and what a pivot does to a row and to the heads.
//! - `Tableaus`: a tableau of condensed rows, the tableau that it stands for, and its pivots.
//! - `whole_rows_law`: the combination of whole rows, and where it passes 128 bits.
//! - `pivot_law`: a pivot of condensed rows is one of their whole rows.
//! - `tableau_law`: a pivot of a condensed tableau is one of the tableau that it stands for.
#![tactic(auto)]

ghost use Rattle.condensed_laws.specs.Laws.{CombinedOfWholes, FitsOfWholes, PassesNowhereOfWholes, TargetOfPivot, PivotRowStays, PivotPassesNowhere, PivotFitsAt, LentRowIsLikeWhole, BuiltOfCondensed, PivotOfCondensed, PivotStaysSound, CondensedRowsFit, CondensedRowsArePrimitive};

/// Two condensed rows with the same places, which show each entry that is not 0 in both. The combination of their whole
/// rows is the whole row of their combination, and the one passes 128 bits in a column just where the other does at the
/// column's place; so the one passes nowhere just where the other does.
pub fn whole_rows_law()
    ensures combined { CombinedOfWholes }
    ensures fits { FitsOfWholes }
    ensures passes_nowhere { PassesNowhereOfWholes }
{}

/// In a pivot of condensed rows the leaving column takes the place of the entering one. Each other row then stands for the
/// combination of the whole rows, and the pivot row for the whole row that it stood for. The combination of the condensed
/// rows passes 128 bits at a place just where that of the whole rows passes in a column with the place.
pub fn pivot_law()
    ensures target { TargetOfPivot }
    ensures pivot_row { PivotRowStays }
    ensures passes_nowhere { PivotPassesNowhere }
    ensures fits { PivotFitsAt }
    ensures lent { LentRowIsLikeWhole }
{}

/// The condensed tableau of a program stands for the tableau as built, and is sound. A sound one stands, after a pivot in a
/// column that is not basic, for the pivot of the tableau that it stood for, and is sound. Its rows fit and are primitive if
/// the whole rows do and are.
pub fn tableau_law()
    ensures built { BuiltOfCondensed }
    ensures pivot { PivotOfCondensed }
    ensures sound { PivotStaysSound }
    ensures fits { CondensedRowsFit }
    ensures primitive { CondensedRowsArePrimitive }
{}
