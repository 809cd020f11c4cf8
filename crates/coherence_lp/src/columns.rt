ghost use Rattle.std.specs.Prelude.{◌≡◌, ◌≤◌, ◌<◌, ◌++◌, ◌∷◌, [], length, map, slice_get, IfOk, OnOk};
ghost use Rattle.std.specs.List.{All, AllZip};
ghost use Rattle.settlement_definitions.specs.Gain.{gain};
ghost use Rattle.settlement_definitions.specs.Scores.{HasScoresInRange};
ghost use Rattle.row_definitions.specs.Rows.{row_divisor};
ghost use Rattle.judging_definitions.specs.Columns.{offer_divisor};
ghost use Rattle.coherence_lp.specs.ProgramTables.{divided_gains, divided_table};

use crate::gains::push_gains;
use fraction_rows::{common_divisor, primitive};
use scan_types::{Offer, Outcome, WantOfMemory};
use std::alloc::Global;

/// What the columns of a program are made of: what each offer gains at each class by its divisor, offer by offer, and the
/// divisor of each offer.
#[derive(Debug, Drop)]
pub struct Columns {
    /// The gains, each divided by the divisor of its offer.
    pub gains: Vec<i128>,
    /// The divisors.
    pub divisors: Vec<u128>,
}

/// The columns of these offers. Computes each gain once. Takes memory for a number a pair of offer and class.
pub fn columns_of(
    alloc: Global,
    offers: &[Offer],
    classes: &[Outcome],
) -> Result<Columns, WantOfMemory>
    requires { All HasScoresInRange classes.now }
    ensures gains { IfOk result (λ columns. columns.gains.items ≡ divided_table classes.now offers.now) }
    ensures divisors { IfOk result (λ columns. columns.divisors.items ≡ map (offer_divisor classes.now) offers.now) }
{
    let mut gains = Vec::new(alloc);
    let mut divisors = Vec::with_capacity(alloc, offers.len())?;
    for i in 0..offers.len() {
        divisors.push(push_column(&mut gains, &offers[i], classes)?)?;
    }
    Ok(Columns { gains, divisors })
}

/// Appends what the offer gains at each class by its divisor, and returns the divisor.
fn push_column(
    gains: &mut Vec<i128>,
    offer: &Offer,
    classes: &[Outcome],
) -> Result<u128, WantOfMemory>
    requires { All HasScoresInRange classes.now }
    ensures gains { OnOk result (gains.new.items ≡ gains.old.items ++ divided_gains classes.now offer.now) }
    ensures divisor { IfOk result (λ divisor. divisor ≡ offer_divisor classes.now offer.now) }
{
    let start = gains.len();
    push_gains(gains, offer, classes)?;
    let column = &mut gains.as_mut_slice()[start..];
    let divisor = divisor_of(column);
    primitive(column);
    Ok(divisor)
}

/// The greatest common divisor of the numbers of a row, and 0 of zeros.
fn divisor_of(row: &[i128]) -> u128
    ensures { result ≡ row_divisor row.now }
{
    let mut divisor = 0;
    for x in row {
        divisor = common_divisor(x.unsigned_abs(), divisor);
    }
    divisor
}

/// The offers with these numbers.
pub fn picked(alloc: Global, offers: &[Offer], numbers: &[u32]) -> Result<Vec<Offer>, WantOfMemory>
    requires { All (λ number. number < length offers.now) numbers.now }
    ensures { IfOk result (λ picked. AllZip (λ number offer. slice_get offers.now number ≡ Some offer) numbers.now picked.items) }
{
    let mut picked = Vec::with_capacity(alloc, numbers.len())?;
    for number in numbers {
        picked.push(offers[*number as usize])?;
    }
    Ok(picked)
}
