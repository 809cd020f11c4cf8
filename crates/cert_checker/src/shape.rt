ghost use Rattle.std.specs.Prelude.{ℕ, ◌≡◌, ◌<◌, ◌≤◌, ◌↔◌, IsTrue, Any, length, MatchOption, IfSome, slice_index_or};
ghost use Rattle.finding_definitions.specs.Measure.{IsFinal, IsPriceMeasure};
ghost use Rattle.settlement_definitions.specs.Scores.{HasScoresInRange};
ghost use Rattle.scan_types.specs.declared.limits.TheConstants.{MOST_MEASURE_ENTRIES};
ghost use Rattle.cert_checker.specs.Places.{Finds};
ghost use Rattle.cert_checker.specs.Shapes.{HasShape, IsEntry, IsMeasureFault, IsMiscount, IsPart, IsShapeFault};

use finding_definitions::Parts;
use scan_types::Outcome;
use scan_types::limits::{MOST_MEASURE_ENTRIES, MOST_PART, MOST_SCORE};

/// The smaller of the two counts, if the stakes are not one for each offer.
pub(crate) fn miscount(stakes: usize, offers: usize) -> Option<usize>
    ensures { MatchOption result (stakes ≡ offers) (λ k. IsMiscount stakes offers k) }
{
    if stakes == offers {
        None
    } else {
        Some(stakes.min(offers))
    }
}

/// What is wrong with the form of fractional stakes on so many offers: the smaller count if there is not one
/// for each offer, the number of offers if the divisor is 0 or above `MOST_PART`, or the place of the first
/// part above `MOST_PART`.
pub fn shape_fault(offers: usize, stakes: &Parts) -> Option<usize>
    ensures fault { MatchOption result (HasShape offers stakes.now) (λ k. IsShapeFault offers stakes.now k) }
    ensures few { IfSome result (λ k. k ≤ offers) }
{
    let parts = stakes.items();
    if let Some(k) = miscount(parts.len(), offers) {
        return Some(k);
    }
    if stakes.divisor() == 0 || stakes.divisor() > MOST_PART {
        return Some(offers);
    }
    large_part(parts)
}

/// The place of the first part above `MOST_PART`, if there is one.
fn large_part(parts: &[u64]) -> Option<usize>
    ensures { Finds IsPart parts.now result }
{
    for (k, part) in parts.iter().enumerate() {
        if *part > MOST_PART {
            return Some(k);
        }
    }
    None
}

/// The place of the first entry that cannot stand in a measure. If all can but none is a final score, the
/// number of entries. Compares each outcome with those before it: O(entries^2).
pub fn measure_fault(entries: &[(Outcome, u64)]) -> Option<usize>
    ensures fault { MatchOption result (IsPriceMeasure entries.now) (λ k. IsMeasureFault entries.now k) }
    ensures few { IfSome result (λ k. k ≤ MOST_MEASURE_ENTRIES) }
{
    match unfit_entry(entries) {
        Some(k) => Some(k),
        None if has_final(entries) => None,
        None => Some(entries.len()),
    }
}

/// The place of the first entry that cannot stand in a measure, if there is one.
fn unfit_entry(entries: &[(Outcome, u64)]) -> Option<usize>
    ensures first { Finds (IsEntry entries.now) entries.now result }
    ensures few { IfSome result (λ k. k ≤ MOST_MEASURE_ENTRIES) }
{
    for k in 0..entries.len() {
        if !is_entry(entries, k) {
            return Some(k);
        }
    }
    None
}

/// Whether one of the entries is a final score.
fn has_final(entries: &[(Outcome, u64)]) -> bool
    ensures { IsTrue result ↔ Any (λ e. IsFinal e.0) entries.now }
{
    entries.iter().any(|e| is_final(e.0))
}

/// Whether the entry of this place can stand in a measure: among the first `MOST_MEASURE_ENTRIES`, with a
/// weight and scores in range, and with an outcome that no earlier entry has.
fn is_entry(entries: &[(Outcome, u64)], k: usize) -> bool
    requires { k < length entries.now }
    ensures { (d : Outcome × ℕ) → IsTrue result ↔ IsEntry entries.now k (slice_index_or entries.now k d) }
{
    let (outcome, weight) = entries[k];
    k < MOST_MEASURE_ENTRIES
        && 1 <= weight
        && weight <= MOST_PART
        && has_scores_in_range(outcome)
        && !stands_in(&entries[..k], outcome)
}

/// Whether one of the entries has this outcome.
fn stands_in(entries: &[(Outcome, u64)], outcome: Outcome) -> bool
    ensures { IsTrue result ↔ Any (λ e. e.0 ≡ outcome) entries.now }
{
    entries.iter().any(|e| e.0 == outcome)
}

/// Whether the goals of both sides are at most `MOST_SCORE`.
fn has_scores_in_range(outcome: Outcome) -> bool
    ensures { IsTrue result ↔ HasScoresInRange outcome }
{
    let (Outcome::Full(home, away) | Outcome::Abandoned(home, away)) = outcome;
    home <= MOST_SCORE && away <= MOST_SCORE
}

/// Whether the match was completed.
fn is_final(outcome: Outcome) -> bool
    ensures { IsTrue result ↔ IsFinal outcome }
{
    matches!(outcome, Outcome::Full(_, _))
}
