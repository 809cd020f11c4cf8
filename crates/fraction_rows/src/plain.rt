// Plain, slow programs with the clauses of `primitive` and `combine` that fix what they answer and leave. Tests compare
// those with them: Euclid's algorithm over all entries, then one division an entry; each product tested before any is
// written.
ghost use Rattle.std.specs.Prelude.{◌≡◌, ◌<◌, ◌^◌, length, pos, IfSome, IfNone, OnOk, IfErr, OnErr};
ghost use Rattle.std.specs.Int.{IsGcd};
ghost use Rattle.std.specs.List.{All};
ghost use Rattle.row_definitions.specs.Rows.{row_divisor, primitive_row};
ghost use Rattle.row_definitions.specs.Combination.{FitsEntry, PassesNowhere, PassesFirst, combined, target_factor, pivot_factor};
ghost use Rattle.fraction_rows.specs.Combinable.{Combinable};

use crate::combination::{Factors, Passed, checked_entry};
use crate::divisor::quotient;
use crate::writing::fitting_entry;

pub(crate) fn plain_primitive(row: &mut [i128])
    requires { All FitsEntry row.old }
    ensures value { row.new ≡ primitive_row row.old }
    ensures fits { All FitsEntry row.new }
{
    let divisor = plain_divisor(row);
    if divisor == 0 {
        return;
    }
    for x in row.iter_mut() {
        *x = quotient(*x, divisor);
    }
}

pub(crate) fn plain_combine(target: &mut [i128], pivot: &[i128], at: usize) -> Result<(), Passed>
    requires combinable { Combinable target.old pivot.now at }
    requires columns { length target.old < 2 ^ 32 }
    ensures ok { OnOk result (target.new ≡ combined target.old pivot.now at) }
    ensures passes_first { IfErr result (λ e. PassesFirst target.old pivot.now at e.column) }
    ensures unchanged { OnErr result (target.new ≡ target.old) }
{
    if let Some(column) = plain_passing(target, pivot, at) {
        return Err(Passed { column });
    }
    let factors = plain_factors(target, pivot, at);
    for column in 0..target.len() {
        target[column] = fitting_entry(target[column], pivot[column], factors);
    }
    plain_primitive(target);
    Ok(())
}

// The first column in which a product or a difference passes.
fn plain_passing(target: &[i128], pivot: &[i128], at: usize) -> Option<u32>
    requires combinable { Combinable target.now pivot.now at }
    requires columns { length target.now < 2 ^ 32 }
    ensures first { IfSome result (PassesFirst target.now pivot.now at) }
    ensures nowhere { IfNone result (PassesNowhere target.now pivot.now at) }
{
    let factors = plain_factors(target, pivot, at);
    for column in 0..target.len() {
        if checked_entry(target[column], pivot[column], factors).is_none() {
            return Some(column as u32);
        }
    }
    None
}

// The two entries of the column, divided by their greatest common divisor.
fn plain_factors(target: &[i128], pivot: &[i128], at: usize) -> Factors
    requires { Combinable target.now pivot.now at }
    ensures target { result.target ≡ target_factor target.now pivot.now at }
    ensures pivot { result.pivot ≡ pivot_factor target.now pivot.now at }
{
    let divisor = plain_divisor(&[pivot[at], target[at]]);
    Factors {
        target: quotient(pivot[at], divisor),
        pivot: quotient(target[at], divisor),
    }
}

fn plain_divisor(row: &[i128]) -> i128
    requires { All FitsEntry row.now }
    ensures { result ≡ pos (row_divisor row.now) }
{
    let mut divisor = 0;
    for x in row {
        divisor = euclid(x.unsigned_abs(), divisor);
    }
    divisor as i128
}

fn euclid(a: u128, b: u128) -> u128
    ensures { IsGcd a b result }
{
    let mut x = a;
    let mut y = b;
    while y != 0 {
        let rest = x % y;
        x = y;
        y = rest;
    }
    x
}
