ghost use Rattle.std.specs.Prelude.{◌≡◌, ◌*◌, ◌<◌, ◌^◌, IsTrue};
ghost use Rattle.std.specs.Ordering.{MatchOrdering};

use std::cmp::Ordering;

// A fraction that is not negative. The denominator is above 0.
#[derive(Clone, Copy)]
pub(crate) struct Ratio {
    /// What stands above the line.
    pub(crate) numerator: u128,
    /// What stands below it, above 0.
    pub(crate) denominator: u128,
}

impl Ratio {
    // Which of two fractions is the larger. Where all four numbers fit 64 bits, their products are compared. Else a product
    // could pass 128 bits, and their whole parts are compared, and where those are equal the rests by their reciprocals, as in
    // continued fractions.
    pub(crate) fn compare(self, other: Ratio) -> Ordering
        requires denominator { 0 < self.denominator }
        requires other_denominator { 0 < other.denominator }
        ensures { MatchOrdering result (self.numerator * other.denominator < other.numerator * self.denominator) (self.numerator * other.denominator ≡ other.numerator * self.denominator) (other.numerator * self.denominator < self.numerator * other.denominator) }
    {
        if self.is_narrow() && other.is_narrow() {
            let product = self.numerator * other.denominator;
            let other_product = other.numerator * self.denominator;
            return product.cmp(&other_product);
        }
        let whole = self.numerator / self.denominator;
        let other_whole = other.numerator / other.denominator;
        if whole != other_whole {
            return whole.cmp(&other_whole);
        }
        let rest = self.numerator % self.denominator;
        let other_rest = other.numerator % other.denominator;
        if rest == 0 || other_rest == 0 {
            return rest.cmp(&other_rest);
        }
        let reciprocal = Ratio {
            numerator: self.denominator,
            denominator: rest,
        };
        let other_reciprocal = Ratio {
            numerator: other.denominator,
            denominator: other_rest,
        };
        other_reciprocal.compare(reciprocal)
    }

    fn is_narrow(self) -> bool
        ensures { IsTrue result → (self.numerator < 2 ^ 64) × (self.denominator < 2 ^ 64) }
    {
        self.numerator <= u64::MAX as u128 && self.denominator <= u64::MAX as u128
    }
}
