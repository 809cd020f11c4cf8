ghost use Rattle.std.specs.Prelude.{◌≡◌, ◌≤◌, ◌<◌, ◌+◌, ◌*◌, ◌^◌, ◌++◌, ◌∷◌, [], suc, length, map, replicate, pos, neg_ℤ, zip, OnOk};
ghost use Rattle.std.specs.List.{All, AllZip, flat_map, range_with_len};
ghost use Rattle.row_definitions.specs.Combination.{FitsEntry};
ghost use Rattle.row_definitions.specs.Rows.{entry};
ghost use Rattle.pivot_definitions.specs.Programs.{unit_row};
ghost use Rattle.scan_types.specs.declared.limits.TheConstants.{MOST_ODDS};
ghost use Rattle.coherence_lp.specs.ProgramTables.{row_of_class, rows_of_classes};

use scan_types::{MOST_ODDS, Offer, WantOfMemory};

/// Appends the rows of all classes: what the level asks for at the class, and less what each of so many offers gains there.
pub fn push_class_rows(
    coefs: &mut Vec<i128>,
    asked: &[i128],
    gains: &[i128],
    count: usize,
) -> Result<(), WantOfMemory>
    requires table { count * length asked.now ≤ length gains.now }
    requires fits { All FitsEntry gains.now }
    ensures { OnOk result (coefs.new.items ≡ coefs.old.items ++ rows_of_classes asked.now gains.now count (length asked.now)) }
{
    for j in 0..asked.len() {
        coefs.push(asked[j])?;
        push_negated(coefs, gains, asked.len(), count, j)?;
    }
    Ok(())
}

/// Appends less what each of so many offers gains at class `j`.
fn push_negated(
    coefs: &mut Vec<i128>,
    gains: &[i128],
    width: usize,
    count: usize,
    j: usize,
) -> Result<(), WantOfMemory>
    requires table { count * width ≤ length gains.now }
    requires class { j < width }
    requires fits { All FitsEntry gains.now }
    ensures { OnOk result (coefs.new.items ≡ coefs.old.items ++ map (λ i. neg_ℤ (entry gains.now (i * width + j))) (range_with_len 0 count)) }
{
    for i in 0..count {
        coefs.push(-gains[i * width + j])?;
    }
    Ok(())
}

/// Appends a row for each of so many offers: 1 in its column, 0 elsewhere.
pub fn push_limit_rows(coefs: &mut Vec<i128>, count: usize) -> Result<(), WantOfMemory>
    requires { count < 2 ^ 32 }
    ensures { OnOk result (coefs.new.items ≡ coefs.old.items ++ flat_map (λ column. unit_row (suc count) column) (range_with_len 1 count)) }
{
    for i in 0..count {
        push_unit_row(coefs, count + 1, i + 1)?;
    }
    Ok(())
}

/// Appends a row of so many numbers with 1 in a column and 0 elsewhere.
pub fn push_unit_row(coefs: &mut Vec<i128>, width: usize, column: usize) -> Result<(), WantOfMemory>
    requires { column < width }
    ensures { OnOk result (coefs.new.items ≡ coefs.old.items ++ unit_row width column) }
{
    push_zeros(coefs, column)?;
    coefs.push(1)?;
    push_zeros(coefs, width - 1 - column)
}

/// Appends so many zeros.
pub fn push_zeros(numbers: &mut Vec<i128>, count: usize) -> Result<(), WantOfMemory>
    ensures { OnOk result (numbers.new.items ≡ numbers.old.items ++ replicate count (pos 0)) }
{
    for _ in 0..count {
        numbers.push(0)?;
    }
    Ok(())
}

/// Appends the right side of each limit: the limit of the offer times its divisor.
pub fn push_limits(
    right: &mut Vec<i128>,
    offers: &[Offer],
    divisors: &[u128],
) -> Result<(), WantOfMemory>
    requires each { length divisors.now ≡ length offers.now }
    requires small { All (λ divisor. divisor ≤ 2 * MOST_ODDS) divisors.now }
    ensures { OnOk result (right.new.items ≡ right.old.items ++ map (λ e. pos (e.0.limit * e.1)) (zip offers.now divisors.now)) }
{
    for i in 0..offers.len() {
        right.push((u128::from(offers[i].limit) * divisors[i]) as i128)?;
    }
    Ok(())
}
