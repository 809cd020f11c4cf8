// The combination written over its target, in the width that the bits of both rows and of their factors allow.
ghost use Rattle.std.specs.Prelude.{◌≡◌, ℕ, ◌<◌, ◌≤◌, length, ◌-ℤ◌, ◌*ℤ◌};
ghost use Rattle.std.specs.List.{All};
ghost use Rattle.row_definitions.specs.Rows.{entry};
ghost use Rattle.row_definitions.specs.Combination.{ProductsFit, combination};
ghost use Rattle.fraction_rows.specs.BitLengths.{HasBits, IsShortBy};

use crate::bits::{NARROW_BITS, bits_of, products_are_short};
use crate::combination::Factors;

// Writes the combination of two rows, whose products and differences fit, over the target. Returns how many bits are enough
// for its numbers.
pub(crate) fn write_combination(
    target: &mut [i128],
    target_bits: u32,
    pivot: &[i128],
    pivot_bits: u32,
    factors: Factors,
) -> u32
    requires lengths { length target.old ≡ length pivot.now }
    requires fits { (column : ℕ) → column < length target.old → ProductsFit factors.target factors.pivot (entry target.old column) (entry pivot.now column) }
    requires target_bits { All (HasBits target_bits) target.old }
    requires pivot_bits { All (HasBits pivot_bits) pivot.now }
    ensures value { target.new ≡ combination factors.target factors.pivot target.old pivot.now }
    ensures bits { All (HasBits result) target.new }
{
    if products_are_short(factors.target, target_bits, NARROW_BITS)
        && products_are_short(factors.pivot, pivot_bits, NARROW_BITS)
    {
        let factors = NarrowFactors {
            target: factors.target as i64,
            pivot: factors.pivot as i64,
        };
        return write_narrow(target, pivot, factors);
    }
    write_wide(target, pivot, factors)
}

fn write_wide(target: &mut [i128], pivot: &[i128], factors: Factors) -> u32
    requires lengths { length target.old ≡ length pivot.now }
    requires fits { (column : ℕ) → column < length target.old → ProductsFit factors.target factors.pivot (entry target.old column) (entry pivot.now column) }
    ensures value { target.new ≡ combination factors.target factors.pivot target.old pivot.now }
    ensures bits { All (HasBits result) target.new }
{
    let mut sizes = 0;
    for column in 0..target.len() {
        let entry = fitting_entry(target[column], pivot[column], factors);
        target[column] = entry;
        sizes |= entry.unsigned_abs();
    }
    bits_of(sizes)
}

pub(crate) fn fitting_entry(target: i128, pivot: i128, factors: Factors) -> i128
    requires { ProductsFit factors.target factors.pivot target pivot }
    ensures { result ≡ factors.target *ℤ target -ℤ factors.pivot *ℤ pivot }
{
    factors.target * target - factors.pivot * pivot
}

// What the two rows are multiplied by, in 64 bits.
#[derive(Clone, Copy)]
struct NarrowFactors {
    target: i64,
    pivot: i64,
}

// As `write_wide` does, where no number has more than 64 bits on the way.
fn write_narrow(target: &mut [i128], pivot: &[i128], factors: NarrowFactors) -> u32
    requires lengths { length target.old ≡ length pivot.now }
    requires target { All (IsShortBy factors.target) target.old }
    requires pivot { All (IsShortBy factors.pivot) pivot.now }
    ensures value { target.new ≡ combination factors.target factors.pivot target.old pivot.now }
    ensures bits { All (HasBits result) target.new }
{
    let mut sizes = 0;
    for column in 0..target.len() {
        let entry = narrow_entry(target[column], pivot[column], factors);
        target[column] = entry as i128;
        sizes |= entry.unsigned_abs();
    }
    bits_of(sizes as u128)
}

fn narrow_entry(target: i128, pivot: i128, factors: NarrowFactors) -> i64
    requires target { IsShortBy factors.target target }
    requires pivot { IsShortBy factors.pivot pivot }
    ensures { result ≡ factors.target *ℤ target -ℤ factors.pivot *ℤ pivot }
{
    factors.target * target as i64 - factors.pivot * pivot as i64
}
