ghost use Rattle.std.specs.Prelude.{◌≡◌, ◌≤◌, ◌<◌, ◌+◌, ◌*◌, ◌++◌, length, map, nat_lt, IfOk, OnOk};
ghost use Rattle.std.specs.List.{All, flat_map};
ghost use Rattle.settlement_definitions.specs.Gain.{gain};
ghost use Rattle.settlement_definitions.specs.Scores.{HasScoresInRange};
ghost use Rattle.coherence_lp.specs.Comparisons.{any_below, row_dominates, table_row};

use scan_types::{Offer, Outcome, WantOfMemory};
use std::alloc::Global;
use void_rules::gain;

/// What each offer gains at each class, offer by offer, in 1/2000 of its stake. Takes memory for a number a pair.
pub fn gain_table(
    alloc: Global,
    offers: &[Offer],
    classes: &[Outcome],
) -> Result<Vec<i128>, WantOfMemory>
    requires { All HasScoresInRange classes.now }
    ensures { IfOk result (λ gains. gains.items ≡ flat_map (λ offer. map (gain offer) classes.now) offers.now) }
{
    let mut gains = Vec::new(alloc);
    for i in 0..offers.len() {
        push_gains(&mut gains, &offers[i], classes)?;
    }
    Ok(gains)
}

/// Appends what the offer gains at each class.
pub fn push_gains(
    gains: &mut Vec<i128>,
    offer: &Offer,
    classes: &[Outcome],
) -> Result<(), WantOfMemory>
    requires { All HasScoresInRange classes.now }
    ensures { OnOk result (gains.new.items ≡ gains.old.items ++ map (gain offer.now) classes.now) }
{
    for j in 0..classes.len() {
        gains.push(i128::from(gain(offer, classes[j])))?;
    }
    Ok(())
}

/// The gains of an offer in a table of so many classes.
pub fn row_of(table: &[i128], width: usize, k: usize) -> &[i128]
    requires { k * width + width ≤ length table.now }
    ensures { result.now ≡ table_row table.now width k }
{
    &table[k * width..k * width + width]
}

/// Whether an offer with the first gains dominates one with the second: it gains at least as much at every class, and more
/// at some class or stands earlier. Ends at the first class where it gains less.
pub fn dominates(other: &[i128], own: &[i128], is_earlier: bool) -> bool
    requires { length other.now ≡ length own.now }
    ensures { result ≡ row_dominates other.now own.now (length own.now) is_earlier }
{
    let mut gains_more = false;
    for j in 0..own.len() {
        let theirs = other[j];
        let ours = own[j];
        if theirs < ours {
            return false;
        }
        gains_more = gains_more || ours < theirs;
    }
    gains_more || is_earlier
}

/// Whether one of so many offers in a table dominates offer `i`.
pub fn is_dominated(table: &[i128], width: usize, count: usize, i: usize) -> bool
    requires table { count * width ≤ length table.now }
    requires within { i < count }
    ensures { result ≡ any_below (λ k. row_dominates (table_row table.now width k) (table_row table.now width i) width (nat_lt k i)) count }
{
    let own = row_of(table, width, i);
    for k in 0..count {
        if dominates(row_of(table, width, k), own, k < i) {
            return true;
        }
    }
    false
}
