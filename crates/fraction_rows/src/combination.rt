// The combination of two rows that makes the first 0 in a column.
ghost use Rattle.std.specs.Prelude.{◌≡◌, ◌<◌, ◌^◌, length, ◌-ℤ◌, ◌*ℤ◌, SomeIff, IfSome, IfNone, OnOk, IfErr, OnErr, IsTrue, ◌↔◌};
ghost use Rattle.std.specs.Int.{◌∣◌};
ghost use Rattle.std.specs.List.{All};
ghost use Rattle.std.specs.Option.{ForSome};
ghost use Rattle.row_definitions.specs.Rows.{row_divisor, IsPositiveMultiple};
ghost use Rattle.row_definitions.specs.Combination.{FitsEntry, ProductsFit, FitsAt, PassesNowhere, PassesFirst, plain_combination, reduced_combination, combined, target_factor, pivot_factor};
ghost use Rattle.fraction_rows.specs.Combinable.{Combinable, IsPrimitivePair, IsZeroIn};
ghost use Rattle.fraction_rows.specs.BitLengths.{HasBits};

use crate::bits::{WIDE_BITS, bit_length, products_are_short};
use crate::division::divide_by_content;
use crate::divisor::{common_divisor, divisor_of_pair, quotient};
use crate::writing::write_combination;

/// A combination passed 128 bits: in this column, the first such, one of the two products or their difference is above
/// `2^127 - 1` or below `-(2^127 - 1)`.
#[derive(Clone, Copy, Debug, PartialEq, Eq)]
pub struct Passed {
    /// The column, counted from 0.
    pub column: u32,
}

/// Makes the target 0 in column `at`. With `g` the greatest common divisor of the two entries there, it becomes the
/// primitive of `(pivot[at] / g) * target - (target[at] / g) * pivot`: the combination `pivot[at] * target - target[at] *
/// pivot`, in which nothing is divided, is a positive multiple of it. Where a product or a difference passes 128 bits,
/// the first such column is answered and the target stays as it was. The pivot's entry in the column is above 0, and no
/// entry is the least `i128`. Both rows have one length, below 2^32, and `at` is one of their columns. Costs a scan of
/// each row for its bit length, `first_passing`, and `combine_within`. A pivot of several rows knows how many bits they
/// have and tests all of them before it writes any, so it calls these two halves.
pub fn combine(target: &mut [i128], pivot: &[i128], at: usize) -> Result<(), Passed>
    requires combinable { Combinable target.old pivot.now at }
    requires columns { length target.old < 2 ^ 32 }

    ensures ok { OnOk result (target.new ≡ combined target.old pivot.now at) }
    ensures multiple { OnOk result (IsPositiveMultiple (plain_combination target.old pivot.now at) target.new) }
    ensures passes_nowhere { OnOk result (PassesNowhere target.old pivot.now at) }

    ensures passes_first { IfErr result (λ e. PassesFirst target.old pivot.now at e.column) }
    ensures unchanged { OnErr result (target.new ≡ target.old) }

    ensures fits { All FitsEntry target.new }
{
    let target_bits = bit_length(target);
    let pivot_bits = bit_length(pivot);
    match first_passing(target, target_bits, pivot, pivot_bits, at) {
        Some(column) => Err(Passed { column }),
        None => {
            combine_within(target, target_bits, pivot, pivot_bits, at, 0);
            Ok(())
        }
    }
}

/// The test of `combine`, by the two rows and bits that are enough for their numbers: the first column in which the
/// combination passes 128 bits, or none. The other conditions are those of `combine`. Mostly the bits of the two entries of
/// the column and of the rows are so few that no column can pass, and it costs no more than to look. Else it costs a run of
/// Euclid's algorithm for the two factors, and, where their bits are too many as well, one scan of both rows, which forms
/// each product and each difference up to the first that passes.
pub fn first_passing(
    target: &[i128],
    target_bits: u32,
    pivot: &[i128],
    pivot_bits: u32,
    at: usize,
) -> Option<u32>
    requires combinable { Combinable target.now pivot.now at }
    requires columns { length target.now < 2 ^ 32 }
    requires target_bits { All (HasBits target_bits) target.now }
    requires pivot_bits { All (HasBits pivot_bits) pivot.now }

    ensures first { IfSome result (PassesFirst target.now pivot.now at) }
    ensures nowhere { IfNone result (PassesNowhere target.now pivot.now at) }
{
    // The factors are these two entries, divided, so they have no more bits.
    if products_are_short(pivot[at], target_bits, WIDE_BITS)
        && products_are_short(target[at], pivot_bits, WIDE_BITS)
    {
        return None;
    }
    let factors = factors_of(target, pivot, at);
    if products_are_short(factors.target, target_bits, WIDE_BITS)
        && products_are_short(factors.pivot, pivot_bits, WIDE_BITS)
    {
        return None;
    }
    for column in 0..target.len() {
        if checked_entry(target[column], pivot[column], factors).is_none() {
            return Some(column as u32);
        }
    }
    None
}

/// Whether the combination fits 128 bits in a column: both products and their difference. The other conditions are those of
/// `combine`. Costs a run of Euclid's algorithm for the two factors.
pub fn fits_at(target: &[i128], pivot: &[i128], at: usize, column: usize) -> bool
    requires combinable { Combinable target.now pivot.now at }
    requires column { column < length target.now }
    ensures { IsTrue result ↔ FitsAt target.now pivot.now at column }
{
    let factors = factors_of(target, pivot, at);
    checked_entry(target[column], pivot[column], factors).is_some()
}

/// What `combine` does where it passes nowhere, for a caller that tested that. The bits are enough for the numbers of the two
/// rows, and the bound is a number below 2^127 that each common divisor of the combination's entries divides; 0 says nothing
/// of them. Returns how many bits are enough for the numbers of the row that the target becomes. The other conditions are
/// those of `combine`, but for the bound of the length. Costs Euclid's algorithm for the two factors, a scan that writes, in
/// 64 bits where the bits of the factors and of the rows let it, and the division, which falls away where the bound is 1.
pub fn combine_within(
    target: &mut [i128],
    target_bits: u32,
    pivot: &[i128],
    pivot_bits: u32,
    at: usize,
    bound: u128,
) -> u32
    requires combinable { Combinable target.old pivot.now at }
    requires passes_nowhere { PassesNowhere target.old pivot.now at }
    requires target_bits { All (HasBits target_bits) target.old }
    requires pivot_bits { All (HasBits pivot_bits) pivot.now }
    requires bound { row_divisor (reduced_combination target.old pivot.now at) ∣ bound }
    requires bound_fits { bound < 2 ^ 127 }

    ensures value { target.new ≡ combined target.old pivot.now at }
    ensures multiple { IsPositiveMultiple (plain_combination target.old pivot.now at) target.new }
    ensures fits { All FitsEntry target.new }
    ensures bits { All (HasBits result) target.new }
{
    let factors = factors_of(target, pivot, at);
    let bits = write_combination(target, target_bits, pivot, pivot_bits, factors);
    divide_by_content(target, bits, bound)
}

/// A bound for `combine_within` where both rows are primitive and the target's entry in column `at` is not 0: of the target's
/// entry in column `own`, where the pivot is 0, and of the pivot's entry in column `leaving`, where the target is 0, the
/// greatest common divisor. Without an `own` column it is the size of the second alone. In a tableau in canonical form these
/// are the column that is basic in the target, and the one that leaves. Costs a run of Euclid's algorithm.
pub fn content_bound(
    target: &[i128],
    pivot: &[i128],
    at: usize,
    own: Option<usize>,
    leaving: usize,
) -> u128
    requires combinable { Combinable target.now pivot.now at }
    requires primitive { IsPrimitivePair target.now pivot.now at }
    requires own { ForSome own (λ column. IsZeroIn pivot.now column) }
    requires leaving { IsZeroIn target.now leaving }

    ensures divides { row_divisor (reduced_combination target.now pivot.now at) ∣ result }
    ensures fits { result < 2 ^ 127 }
{
    let other = pivot[leaving].unsigned_abs();
    match own {
        Some(column) => common_divisor(target[column].unsigned_abs(), other),
        None => other,
    }
}

// What the two rows are multiplied by.
#[derive(Clone, Copy)]
pub(crate) struct Factors {
    pub(crate) target: i128,
    pub(crate) pivot: i128,
}

// The two entries of the column, divided by their greatest common divisor.
fn factors_of(target: &[i128], pivot: &[i128], at: usize) -> Factors
    requires { Combinable target.now pivot.now at }
    ensures target { result.target ≡ target_factor target.now pivot.now at }
    ensures pivot { result.pivot ≡ pivot_factor target.now pivot.now at }
{
    let divisor = divisor_of_pair(pivot[at], target[at]);
    Factors {
        target: quotient(pivot[at], divisor),
        pivot: quotient(target[at], divisor),
    }
}

// An entry of the combination, where its products and their difference fit.
pub(crate) fn checked_entry(target: i128, pivot: i128, factors: Factors) -> Option<i128>
    ensures { SomeIff result (ProductsFit factors.target factors.pivot target pivot) (factors.target *ℤ target -ℤ factors.pivot *ℤ pivot) }
{
    let target_product = product(factors.target, target)?;
    let pivot_product = product(factors.pivot, pivot)?;
    difference(target_product, pivot_product)
}

fn product(a: i128, b: i128) -> Option<i128>
    ensures { SomeIff result (FitsEntry (a *ℤ b)) (a *ℤ b) }
{
    a.checked_mul(b).filter(|product| *product != i128::MIN)
}

fn difference(a: i128, b: i128) -> Option<i128>
    ensures { SomeIff result (FitsEntry (a -ℤ b)) (a -ℤ b) }
{
    a.checked_sub(b)
        .filter(|difference| *difference != i128::MIN)
}
