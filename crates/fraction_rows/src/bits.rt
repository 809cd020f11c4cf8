// How many bits the numbers of a row have.
ghost use Rattle.std.specs.Prelude.{ℕ, ◌≡◌, ◌<◌, ◌≤◌, ◌^◌, ◌*ℤ◌, ℤ, unsigned_abs, IsTrue};
ghost use Rattle.std.specs.Int.{◌∣◌};
ghost use Rattle.row_definitions.specs.Rows.{divided};
ghost use Rattle.fraction_rows.specs.BitLengths.{HasBits, IsBitLength};

// The most bits of two products whose difference fits 128 bits for sure, and of two whose difference fits 64.
pub(crate) const WIDE_BITS: u32 = 126;

pub(crate) const NARROW_BITS: u32 = 62;

/// The bit length of the row: the least number of bits that is enough for the size of each of its numbers, signs left out.
/// From 0, where all are 0, to 128. Costs one scan of the row.
pub fn bit_length(row: &[i128]) -> u32
    ensures { IsBitLength row.now result }
{
    // The highest bit that any size has is the highest of the sizes taken together, so no two of them are compared.
    let mut sizes = 0;
    for x in row {
        sizes |= x.unsigned_abs();
    }
    bits_of(sizes)
}

// The least number of bits that is enough for a size: 0 for 0.
pub(crate) fn bits_of(size: u128) -> u32
    ensures enough { size < 2 ^ result }
    ensures least { (fewer : ℕ) → size < 2 ^ fewer → result ≤ fewer }
{
    u128::BITS - size.leading_zeros()
}

// Whether the products of the factor and of numbers that have at most so many bits have at most `most` bits, by their bits
// alone.
pub(crate) fn products_are_short(factor: i128, bits: u32, most: u32) -> bool
    ensures product { IsTrue result → (x : ℤ) → HasBits bits x → HasBits most (factor *ℤ x) }
    ensures factor { IsTrue result → HasBits most factor }
    ensures bits { IsTrue result → bits ≤ most }
{
    let factor_bits = bits_of(factor.unsigned_abs());
    factor_bits <= most && bits <= most - factor_bits
}

// How many bits are enough for the quotients of numbers that have at most so many.
pub(crate) fn bits_divided(bits: u32, divisor: u128) -> u32
    requires { 0 < divisor }
    ensures { (x : ℤ) → HasBits bits x → divisor ∣ unsigned_abs x → HasBits result (divided divisor x) }
{
    bits.saturating_sub(bits_of(divisor) - 1)
}
