// Division of what a number divides, without dividing: modulo a power of two an odd number has an inverse, so a quotient that
// is known to be whole is a product (T. Jebelean, "An algorithm for exact division", 1993). In 64 bits it is one product of the
// machine, in 128 bits several.
ghost use Rattle.std.specs.Prelude.{◌≡◌, ◌-◌, ◌/◌, ◌<◌, ◌^◌, ℤ, pos, ◌+ℤ◌, ◌*ℤ◌, ◌<ℤ◌, unsigned_abs, SomeIff};
ghost use Rattle.std.specs.Int.{◌∣◌, w64, w128, int_wrap};
ghost use Rattle.row_definitions.specs.Rows.{divided};
ghost use Rattle.row_definitions.specs.Combination.{FitsEntry};
ghost use Rattle.fraction_rows.specs.Exact.{HasInverse};

// A divisor in 128 bits: how often 2 divides it, the inverse of the odd rest, and the largest quotient by it.
#[derive(Clone, Copy)]
pub(crate) struct ExactDivisor {
    pub(crate) divisor: i128,
    twos: u32,
    inverse: i128,
    largest: u128,
    ghost positive: { pos 0 <ℤ divisor },
    ghost few: { twos < 128 },
    ghost inverted: { HasInverse w128 (unsigned_abs divisor) twos inverse },
    ghost whole: { largest ≡ (2 ^ 127 - 1) / unsigned_abs divisor },
}

impl ExactDivisor {
    // Costs a division and fourteen products.
    pub(crate) fn of(divisor: u128) -> ExactDivisor
        requires positive { 0 < divisor }
        requires fits { divisor < 2 ^ 127 }
        ensures { unsigned_abs result.divisor ≡ divisor }
    {
        let twos = divisor.trailing_zeros();
        ExactDivisor {
            divisor: divisor as i128,
            twos,
            inverse: inverse_of((divisor >> twos) as i128),
            largest: i128::MAX as u128 / divisor,
        }
    }

    // The quotient, where the divisor divides the number: it is the product then. Where it does not, the product is larger
    // than any quotient or does not multiply back.
    pub(crate) fn quotient(self, x: i128) -> Option<i128>
        requires { FitsEntry x }
        ensures { SomeIff result (unsigned_abs self.divisor ∣ unsigned_abs x) (divided (unsigned_abs self.divisor) x) }
    {
        let quotient = (x >> self.twos).wrapping_mul(self.inverse);
        if quotient.unsigned_abs() <= self.largest && quotient * self.divisor == x {
            Some(quotient)
        } else {
            None
        }
    }
}

// The inverse of an odd number modulo 2^128, by Newton's method: 1 is right in the lowest bit, and each round doubles how
// many bits are right.
fn inverse_of(odd: i128) -> i128
    requires { (half : ℤ) × (odd ≡ pos 1 +ℤ pos 2 *ℤ half) }
    ensures { int_wrap w128 (odd *ℤ result) ≡ pos 1 }
{
    let mut inverse = 1i128;
    for _ in 0..7u32 {
        inverse = inverse.wrapping_mul(2i128.wrapping_sub(odd.wrapping_mul(inverse)));
    }
    inverse
}

// A divisor in 64 bits: how often 2 divides it, and the inverse of the odd rest.
#[derive(Clone, Copy)]
pub(crate) struct NarrowDivisor {
    pub(crate) divisor: i64,
    twos: u32,
    inverse: i64,
    ghost positive: { pos 0 <ℤ divisor },
    ghost few: { twos < 64 },
    ghost inverted: { HasInverse w64 (unsigned_abs divisor) twos inverse },
}

impl NarrowDivisor {
    // Costs twelve products.
    pub(crate) fn of(divisor: u64) -> NarrowDivisor
        requires positive { 0 < divisor }
        requires fits { divisor < 2 ^ 63 }
        ensures { unsigned_abs result.divisor ≡ divisor }
    {
        let twos = divisor.trailing_zeros();
        NarrowDivisor {
            divisor: divisor as i64,
            twos,
            inverse: narrow_inverse_of((divisor >> twos) as i64),
        }
    }

    // The quotient, where the divisor divides the number: it is the product then. Where it does not, the product does not
    // multiply back.
    pub(crate) fn quotient(self, x: i64) -> Option<i64>
        requires { unsigned_abs x < 2 ^ 63 }
        ensures { SomeIff result (unsigned_abs self.divisor ∣ unsigned_abs x) (divided (unsigned_abs self.divisor) x) }
    {
        let quotient = (x >> self.twos).wrapping_mul(self.inverse);
        if quotient as i128 * self.divisor as i128 == x as i128 {
            Some(quotient)
        } else {
            None
        }
    }
}

// The inverse of an odd number modulo 2^64, by the same method.
fn narrow_inverse_of(odd: i64) -> i64
    requires { (half : ℤ) × (odd ≡ pos 1 +ℤ pos 2 *ℤ half) }
    ensures { int_wrap w64 (odd *ℤ result) ≡ pos 1 }
{
    let mut inverse = 1i64;
    for _ in 0..6u32 {
        inverse = inverse.wrapping_mul(2i64.wrapping_sub(odd.wrapping_mul(inverse)));
    }
    inverse
}
