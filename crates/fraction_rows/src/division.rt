// A row divided by the greatest common divisor of its entries.
ghost use Rattle.std.specs.Prelude.{◌≡◌, ◌<◌, ◌^◌, pos, ◌*ℤ◌, ◌<ℤ◌, map, unsigned_abs, OnOk, OnErr, IfErr, SomeIff};
ghost use Rattle.std.specs.Int.{◌∣◌};
ghost use Rattle.std.specs.List.{All, Contains};
ghost use Rattle.row_definitions.specs.Rows.{row_divisor, divided, primitive_row};
ghost use Rattle.row_definitions.specs.Combination.{FitsEntry};
ghost use Rattle.fraction_rows.specs.BitLengths.{HasBits};
ghost use Rattle.fraction_rows.specs.Divisors.{size_of};

use crate::bits::{bit_length, bits_divided};
use crate::divisor::{common_divisor, divisor_of_first};
use crate::exact::{ExactDivisor, NarrowDivisor};

/// Divides the row by the greatest common divisor of its entries. Each entry keeps its sign, and a row of zeros stays.
/// No entry may be the least `i128`. Costs a scan for the bit length, a run of Euclid's algorithm an entry until the divisor
/// is 1 or has divided one more, and then a few products an entry. A later entry that lowers the divisor costs a run more
/// and a product for each entry before it, and the row is divided anew.
pub fn primitive(row: &mut [i128])
    requires { All FitsEntry row.old }
    ensures value { row.new ≡ primitive_row row.old }
    ensures fits { All FitsEntry row.new }
{
    let bits = bit_length(row);
    divide_by_content(row, bits, 0);
}

// What `primitive` does to a row whose numbers have at most so many bits. The greatest common divisor divides the bound, where
// the search for it begins. Returns how many bits are enough afterwards.
pub(crate) fn divide_by_content(row: &mut [i128], bits: u32, bound: u128) -> u32
    requires fits { All FitsEntry row.old }
    requires bits { All (HasBits bits) row.old }
    requires bound { row_divisor row.old ∣ bound }
    requires bound_fits { bound < 2 ^ 127 }
    ensures value { row.new ≡ primitive_row row.old }
    ensures fits { All FitsEntry row.new }
    ensures bits { All (HasBits result) row.new }
{
    let mut divisor = divisor_of_first(row, bound);
    while divisor > 1 {
        match divide(row, RowDivisor::of(divisor, bits)) {
            Ok(()) => return bits_divided(bits, divisor),
            Err(entry) => divisor = common_divisor(entry.unsigned_abs(), divisor),
        }
    }
    bits
}

// A divisor, in the width in which it divides a row.
#[derive(Clone, Copy)]
enum RowDivisor {
    Narrow(NarrowDivisor),
    Wide(ExactDivisor),
}

impl RowDivisor {
    // In 64 bits where it and the row's numbers, which have at most so many bits, fit them.
    fn of(divisor: u128, bits: u32) -> RowDivisor
        requires positive { 0 < divisor }
        requires fits { divisor < 2 ^ 127 }
        ensures { size_of result ≡ divisor }
    {
        if bits < i64::BITS && divisor <= i64::MAX as u128 {
            RowDivisor::Narrow(NarrowDivisor::of(divisor as u64))
        } else {
            RowDivisor::Wide(ExactDivisor::of(divisor))
        }
    }

    fn size(self) -> i128
        ensures value { result ≡ pos (size_of self) }
        ensures positive { 0 < size_of self }
    {
        match self {
            RowDivisor::Narrow(divisor) => divisor.divisor as i128,
            RowDivisor::Wide(divisor) => divisor.divisor,
        }
    }

    // The quotient, where the divisor divides the number. A narrow divisor divides a wide number too, by the plain way.
    fn quotient(self, x: i128) -> Option<i128>
        requires { FitsEntry x }
        ensures { SomeIff result (size_of self ∣ unsigned_abs x) (divided (size_of self) x) }
    {
        match self {
            RowDivisor::Narrow(divisor) => narrow_quotient(divisor, x),
            RowDivisor::Wide(divisor) => divisor.quotient(x),
        }
    }
}

fn narrow_quotient(divisor: NarrowDivisor, x: i128) -> Option<i128>
    ensures { SomeIff result (unsigned_abs divisor.divisor ∣ unsigned_abs x) (divided (unsigned_abs divisor.divisor) x) }
{
    if x.unsigned_abs() > i64::MAX as u128 {
        return plain_quotient(divisor.divisor as i128, x);
    }
    match divisor.quotient(x as i64) {
        Some(quotient) => Some(quotient as i128),
        None => None,
    }
}

fn plain_quotient(divisor: i128, x: i128) -> Option<i128>
    requires { pos 0 <ℤ divisor }
    ensures { SomeIff result (unsigned_abs divisor ∣ unsigned_abs x) (divided (unsigned_abs divisor) x) }
{
    if x % divisor == 0 {
        Some(x / divisor)
    } else {
        None
    }
}

// Divides each entry, or leaves the row as it was where the divisor does not divide one: the first such is answered.
#[tactic(auto, using(crate::proofs::Quotients::divided_more, crate::proofs::Quotients::divides_more))]
fn divide(row: &mut [i128], divisor: RowDivisor) -> Result<(), i128>
    requires { All FitsEntry row.old }
    ensures divides { OnOk result (All (λ x. size_of divisor ∣ unsigned_abs x) row.old) }
    ensures value { OnOk result (row.new ≡ map (divided (size_of divisor)) row.old) }
    ensures entry { IfErr result (Contains row.old) }
    ensures not_divided { IfErr result (λ x. ¬ (size_of divisor ∣ unsigned_abs x)) }
    ensures unchanged { OnErr result (row.new ≡ row.old) }
{
    let size = divisor.size();
    for column in 0..row.len() {
        let entry = row[column];
        if entry == 0 {
            continue;
        }
        match divisor.quotient(entry) {
            Some(quotient) => row[column] = quotient,
            None => {
                multiply(&mut row[..column], size);
                return Err(entry);
            }
        }
    }
    Ok(())
}

// Each entry times the factor, which undoes a division by it.
fn multiply(row: &mut [i128], factor: i128)
    requires { All (λ x. FitsEntry (x *ℤ factor)) row.old }
    ensures { row.new ≡ map (λ x. x *ℤ factor) row.old }
{
    for x in row.iter_mut() {
        *x *= factor;
    }
}
