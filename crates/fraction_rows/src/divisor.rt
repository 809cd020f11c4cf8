// The greatest common divisor of two numbers, and of a row.
ghost use Rattle.std.specs.Prelude.{◌≡◌, ◌<◌, ◌^◌, ◌∷◌, [], pos, ◌<ℤ◌, unsigned_abs};
ghost use Rattle.std.specs.List.{All};
ghost use Rattle.std.specs.Int.{◌∣◌, IsGcd};
ghost use Rattle.row_definitions.specs.Rows.{row_divisor, divided};
ghost use Rattle.row_definitions.specs.Combination.{FitsEntry};

/// The greatest common divisor of two numbers, and 0 of two zeros: by Euclid's algorithm, at half the width as soon as both
/// numbers fit it.
pub fn common_divisor(a: u128, b: u128) -> u128
    ensures { IsGcd a b result }
{
    let mut x = a;
    let mut y = b;
    while y != 0 {
        if x <= u64::MAX as u128 && y <= u64::MAX as u128 {
            return narrow_divisor(x as u64, y as u64) as u128;
        }
        let rest = x % y;
        x = y;
        y = rest;
    }
    x
}

fn narrow_divisor(a: u64, b: u64) -> u64
    ensures { IsGcd a b result }
{
    let mut x = a;
    let mut y = b;
    while y != 0 {
        let rest = x % y;
        x = y;
        y = rest;
    }
    x
}

// The greatest common divisor of the bound, which the row's divisor divides, and of the row's first entries, up to one, other
// than 0, that it divides, or up to where it is 1; of all entries where there is no such, so 0 only of zeros. It will mostly
// divide the rest too, which shows while they are divided.
pub(crate) fn divisor_of_first(row: &[i128], bound: u128) -> u128
    requires fits { All FitsEntry row.now }
    requires bound { row_divisor row.now ∣ bound }
    requires bound_fits { bound < 2 ^ 127 }
    ensures multiple { row_divisor row.now ∣ result }
    ensures fits { result < 2 ^ 127 }
    ensures zeros { result ≡ 0 → row_divisor row.now ≡ 0 }
{
    if bound == 1 {
        return 1;
    }
    let mut divisor = bound;
    for x in row {
        if *x == 0 {
            continue;
        }
        let lower = common_divisor(x.unsigned_abs(), divisor);
        if lower == divisor || lower == 1 {
            return lower;
        }
        divisor = lower;
    }
    divisor
}

// The greatest common divisor of two numbers of which the first is above 0.
pub(crate) fn divisor_of_pair(first: i128, second: i128) -> i128
    requires positive { pos 0 <ℤ first }
    requires first_fits { FitsEntry first }
    requires second_fits { FitsEntry second }
    ensures value { result ≡ pos (row_divisor (first ∷ second ∷ [])) }
    ensures positive { pos 0 <ℤ result }
{
    common_divisor(first.unsigned_abs(), second.unsigned_abs()) as i128
}

pub(crate) fn quotient(x: i128, divisor: i128) -> i128
    requires { pos 0 <ℤ divisor }
    ensures { result ≡ divided (unsigned_abs divisor) x }
{
    x / divisor
}
