ghost use Rattle.std.specs.Prelude.{◌≡◌, ◌<◌, ◌≤◌, ℕ, IfSome, IfNone};
ghost use Rattle.pivot_definitions.specs.Tableaus.{column_count};
ghost use Rattle.judging_definitions.specs.Stakes.{Fraction, column_value};
ghost use Rattle.coherence_lp.specs.Ends.{IsBestEnd};
ghost use Rattle.coherence_lp.specs.Ratios.{fraction_of, by_divisor, IsLowestForm, IsLeastCommonMultiple};

use crate::factors::{common_multiple_within, product_within};
use crate::ratio::{Ratio, StepStake};
use fraction_rows::common_divisor;
use fraction_tableau::Tableau;

/// The value of a column in the basic solution.
pub fn column_ratio(tableau: &Tableau, column: u32) -> Ratio
    requires end { IsBestEnd tableau.now }
    requires column { column < column_count tableau.now }
    ensures value { fraction_of result ≡ column_value tableau.now column }
    ensures stands { 1 ≤ result.denominator }
{
    let (numerator, denominator) = tableau.value(column);
    Ratio {
        numerator: numerator.unsigned_abs(),
        denominator: denominator.unsigned_abs(),
    }
}

/// A fraction in lowest terms.
pub fn lowest_ratio(value: Ratio) -> Ratio
    requires { 1 ≤ value.denominator }
    ensures { IsLowestForm (fraction_of value) (fraction_of result) }
{
    let divisor = common_divisor(value.numerator, value.denominator);
    Ratio {
        numerator: value.numerator / divisor,
        denominator: value.denominator / divisor,
    }
}

/// A fraction by a number, in lowest terms, unless its denominator is then above a bound.
pub fn ratio_by(value: Ratio, divisor: u128, most: u128) -> Option<Ratio>
    requires stands { 1 ≤ value.denominator }
    requires divisor { 1 ≤ divisor }
    ensures lowest { IfSome result (λ ratio. IsLowestForm (by_divisor (fraction_of value) divisor) (fraction_of ratio)) }
    ensures none { IfNone result ((lowest : Fraction) → IsLowestForm (by_divisor (fraction_of value) divisor) lowest → most < lowest.denominator) }
{
    let value = lowest_ratio(value);
    let common = common_divisor(value.numerator, divisor);
    let Some(denominator) = product_within(value.denominator, divisor / common, most) else {
        return None;
    };
    Some(Ratio {
        numerator: value.numerator / common,
        denominator,
    })
}

/// A stake, as a fraction by a number, in lowest terms, with the least common multiple of a number above 0 and its
/// denominator, unless that is above a bound.
pub fn step_stake(value: Ratio, divisor: u128, before: u128, most: u128) -> Option<StepStake>
    requires stands { 1 ≤ value.denominator }
    requires divisor { 1 ≤ divisor }
    requires before { 1 ≤ before }
    ensures lowest { IfSome result (λ step. IsLowestForm (by_divisor (fraction_of value) divisor) (fraction_of step.ratio)) }
    ensures multiple { IfSome result (λ step. IsLeastCommonMultiple before step.ratio.denominator step.denominator) }
    ensures small { IfSome result (λ step. step.denominator ≤ most) }
    ensures none { IfNone result ((lowest : Fraction) → IsLowestForm (by_divisor (fraction_of value) divisor) lowest → (multiple : ℕ) → IsLeastCommonMultiple before lowest.denominator multiple → most < multiple) }
{
    let Some(ratio) = ratio_by(value, divisor, most) else {
        return None;
    };
    let Some(denominator) = common_multiple_within(before, ratio.denominator, most) else {
        return None;
    };
    Some(StepStake { ratio, denominator })
}
