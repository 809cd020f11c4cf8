// Fractions in lowest terms.
ghost use Rattle.std.specs.Prelude.{◌≡◌, ◌<ℤ◌, pos, int_div, unsigned_abs};
ghost use Rattle.std.specs.Int.{IsGcd};
ghost use Rattle.best_checker.specs.Amounts.{IsLowest};

/// The fraction of two numbers in lowest terms.
pub(crate) fn in_lowest_terms(top: i128, bottom: i128) -> (i128, i128)
    requires { pos 0 <ℤ bottom }
    ensures { IsLowest top bottom result }
{
    let divisor = divisor_of(top, bottom);
    (quotient(top, divisor), quotient(bottom, divisor))
}

// The greatest common divisor of two numbers, of which the second is above 0.
fn divisor_of(top: i128, bottom: i128) -> i128
    requires { pos 0 <ℤ bottom }
    ensures positive { pos 0 <ℤ result }
    ensures greatest { IsGcd (unsigned_abs top) (unsigned_abs bottom) (unsigned_abs result) }
{
    common_divisor(top.unsigned_abs(), bottom.unsigned_abs()) as i128
}

// The quotient, rounded toward 0.
fn quotient(x: i128, divisor: i128) -> i128
    requires { pos 0 <ℤ divisor }
    ensures { result ≡ int_div x divisor }
{
    x / divisor
}

// The greatest common divisor of two numbers, by Euclid's algorithm.
fn common_divisor(a: u128, b: u128) -> u128
    ensures { IsGcd a b result }
{
    let mut x = a;
    let mut y = b;
    while y != 0 {
        let rest = x % y;
        x = y;
        y = rest;
    }
    x
}
