ghost use Rattle.std.specs.Prelude.{◌≡◌, ◌≢◌, ℕ, ◌<◌, pos, IsTrue, IfSome, IfNone, MatchBool};
ghost use Rattle.pivot_definitions.specs.Tableaus.{column_count, entry_at, right_side};
ghost use Rattle.pivot_definitions.specs.Runs.{IsBest, Enters, CanLeave, ComesBefore, Leaves, IsChoice};
ghost use Rattle.pivot_definitions.specs.Feasible.{HasNoNegativeRightSide};
ghost use Rattle.pivot_rule.specs.Choosable.{HasDistinctBasis, IsChoosable};

use crate::ratio::Ratio;
use fraction_tableau::Tableau;
use std::cmp::Ordering;

// A pivot's row and column.
#[derive(Clone, Copy)]
pub(crate) struct Choice {
    /// The row that leaves, from 0 on.
    pub(crate) row: u32,
    /// The column that enters, from 0 on.
    pub(crate) column: u32,
}

// The choice of Bland's rule, or none where no entry of the objective row but the right side's is positive.
pub(crate) fn choose(tableau: &Tableau) -> Option<Choice>
    requires { IsChoosable tableau.now }
    ensures some { IfSome result (λ choice. IsChoice tableau.now choice.row choice.column) }
    ensures none { IfNone result (IsBest tableau.now) }
{
    let column = entering(tableau)?;
    Some(Choice {
        row: leaving(tableau, column),
        column,
    })
}

// The lowest column with a positive entry in the objective row.
fn entering(tableau: &Tableau) -> Option<u32>
    ensures some { IfSome result (Enters tableau.now) }
    ensures none { IfNone result (IsBest tableau.now) }
{
    for column in 0..tableau.columns() + tableau.rows() {
        if tableau.objective(column) > 0 {
            return Some(column);
        }
    }
    None
}

// The row of the least ratio, and of equal ratios the one whose basic column is the lowest.
fn leaving(tableau: &Tableau, column: u32) -> u32
    requires column { column < column_count tableau.now }
    requires right_sides { HasNoNegativeRightSide tableau.now }
    requires distinct { HasDistinctBasis tableau.now }
    requires bounded { (row : ℕ) × CanLeave tableau.now column row }
    ensures { Leaves tableau.now column result }
{
    let mut least = None;
    for row in 0..tableau.rows() {
        if tableau.entry(row, column) > 0 && is_before(tableau, column, row, least) {
            least = Some(row);
        }
    }
    least.unwrap()
}

// Whether a row comes before the least so far, if there is one.
fn is_before(tableau: &Tableau, column: u32, row: u32, least: Option<u32>) -> bool
    requires column { column < column_count tableau.now }
    requires right_sides { HasNoNegativeRightSide tableau.now }
    requires distinct { HasDistinctBasis tableau.now }
    requires row { CanLeave tableau.now column row }
    requires least { IfSome least (λ other. CanLeave tableau.now column other × (other ≢ row)) }
    ensures none { IfNone least (IsTrue result) }
    ensures some { IfSome least (λ other. MatchBool result (ComesBefore tableau.now column row other) (ComesBefore tableau.now column other row)) }
{
    match least {
        None => true,
        Some(other) => comes_before(tableau, column, row, other),
    }
}

// Whether a row comes before another.
fn comes_before(tableau: &Tableau, column: u32, row: u32, other: u32) -> bool
    requires column { column < column_count tableau.now }
    requires right_sides { HasNoNegativeRightSide tableau.now }
    requires distinct { HasDistinctBasis tableau.now }
    requires row { CanLeave tableau.now column row }
    requires other { CanLeave tableau.now column other }
    requires differ { other ≢ row }
    ensures { MatchBool result (ComesBefore tableau.now column row other) (ComesBefore tableau.now column other row) }
{
    match ratio(tableau, column, row).compare(ratio(tableau, column, other)) {
        Ordering::Less => true,
        Ordering::Equal => tableau.basic(row) < tableau.basic(other),
        Ordering::Greater => false,
    }
}

// A row's ratio of right side to entry in a column.
fn ratio(tableau: &Tableau, column: u32, row: u32) -> Ratio
    requires column { column < column_count tableau.now }
    requires right_sides { HasNoNegativeRightSide tableau.now }
    requires row { CanLeave tableau.now column row }
    ensures numerator { right_side tableau.now row ≡ pos result.numerator }
    ensures denominator { entry_at tableau.now row column ≡ pos result.denominator }
    ensures positive { 0 < result.denominator }
{
    Ratio {
        numerator: tableau.right_side(row) as u128,
        denominator: tableau.entry(row, column) as u128,
    }
}
