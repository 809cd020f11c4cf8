//! Lists of a finding at the front of a text, each with its count before it.
ghost use Rattle.std.specs.Prelude.{◌≡◌};
ghost use Rattle.scan_types.specs.declared.outcome.Outcome.TheVariants.{Full, Abandoned};
ghost use Rattle.certificates.specs.Reading.{field_at, items_at, pair_at, stakes_at, parts_at, outcome_at, entry_at, measure_at, MOST_SHORT, MOST_LONG};
ghost use Rattle.certificates.specs.Gives.{Gives};

use crate::stop::Stop;
use crate::words::{begins_with, field, long, short, word};
use finding_definitions::{Measure, Parts, Stakes};
use scan_types::{MOST_MEASURE_ENTRIES, MOST_OFFERS, Outcome};
use std::alloc::Global;

/// Whole stakes.
#[tactic(auto, unfolding(crate::specs::Reading::stakes_at, crate::specs::Reading::counted_at))]
pub(crate) fn stakes(alloc: Global, text: &[u8]) -> Result<(Stakes, &[u8]), Stop>
    ensures { Gives (λ x. (x.0, x.1.now)) result (stakes_at text.now) }
{
    let (count, rest) = field(text, MOST_OFFERS as u64)?;
    let (items, rest) = short_items(alloc, count, rest)?;
    Ok((Stakes::of(items), rest))
}

/// So many numbers of 32 bits.
fn short_items(alloc: Global, count: u64, text: &[u8]) -> Result<(Vec<u32>, &[u8]), Stop>
    ensures { Gives (λ x. (x.0.items, x.1.now)) result (items_at (field_at MOST_SHORT) count text.now) }
{
    let mut items = Vec::new(alloc);
    let mut rest = text;
    for _ in 0..count {
        let (item, after) = short(rest)?;
        items.push(item)?;
        rest = after;
    }
    Ok((items, rest))
}

/// The divisor and the parts.
#[tactic(auto, unfolding(crate::specs::Reading::parts_at, crate::specs::Reading::counted_at))]
pub(crate) fn parts(alloc: Global, text: &[u8]) -> Result<(Parts, &[u8]), Stop>
    ensures { Gives (λ x. (x.0, x.1.now)) result (parts_at text.now) }
{
    let (divisor, rest) = long(text)?;
    let (count, rest) = field(rest, MOST_OFFERS as u64)?;
    let (items, rest) = long_items(alloc, count, rest)?;
    Ok((Parts::of(divisor, items), rest))
}

/// So many numbers of 64 bits.
fn long_items(alloc: Global, count: u64, text: &[u8]) -> Result<(Vec<u64>, &[u8]), Stop>
    ensures { Gives (λ x. (x.0.items, x.1.now)) result (items_at (field_at MOST_LONG) count text.now) }
{
    let mut items = Vec::new(alloc);
    let mut rest = text;
    for _ in 0..count {
        let (item, after) = long(rest)?;
        items.push(item)?;
        rest = after;
    }
    Ok((items, rest))
}

/// Outcomes with their weights.
#[tactic(auto, unfolding(crate::specs::Reading::measure_at, crate::specs::Reading::counted_at))]
pub(crate) fn measure(alloc: Global, text: &[u8]) -> Result<(Measure, &[u8]), Stop>
    ensures { Gives (λ x. (x.0, x.1.now)) result (measure_at text.now) }
{
    let (count, rest) = field(text, MOST_MEASURE_ENTRIES as u64)?;
    let (entries, rest) = entries(alloc, count, rest)?;
    Ok((Measure::of(entries), rest))
}

/// So many outcomes with their weights.
fn entries(alloc: Global, count: u64, text: &[u8]) -> Result<(Vec<(Outcome, u64)>, &[u8]), Stop>
    ensures { Gives (λ x. (x.0.items, x.1.now)) result (items_at entry_at count text.now) }
{
    let mut items = Vec::new(alloc);
    let mut rest = text;
    for _ in 0..count {
        let (item, after) = entry(rest)?;
        items.push(item)?;
        rest = after;
    }
    Ok((items, rest))
}

/// An outcome with its weight.
#[tactic(auto, unfolding(crate::specs::Reading::entry_at))]
fn entry(text: &[u8]) -> Result<((Outcome, u64), &[u8]), Stop>
    ensures { Gives (λ x. (x.0, x.1.now)) result (entry_at text.now) }
{
    let (outcome, rest) = outcome(text)?;
    let (weight, rest) = long(rest)?;
    Ok(((outcome, weight), rest))
}

/// How the match ends, and its goals.
#[tactic(auto, unfolding(crate::specs::Reading::outcome_at))]
fn outcome(text: &[u8]) -> Result<(Outcome, &[u8]), Stop>
    ensures { Gives (λ x. (x.0, x.1.now)) result (outcome_at text.now) }
{
    let kind = word(text, b" ")?;
    if begins_with(kind, b'f') {
        full(word(kind, b"full")?)
    } else {
        abandoned(word(kind, b"abandoned")?)
    }
}

/// The goals of a completed match.
#[tactic(auto, unfolding(crate::specs::Reading::pair_at))]
fn full(text: &[u8]) -> Result<(Outcome, &[u8]), Stop>
    ensures { Gives (λ x. (x.0, x.1.now)) result (pair_at MOST_LONG Full text.now) }
{
    let (home, rest) = long(text)?;
    let (away, rest) = long(rest)?;
    Ok((Outcome::Full(home, away), rest))
}

/// The goals of an abandoned match.
#[tactic(auto, unfolding(crate::specs::Reading::pair_at))]
fn abandoned(text: &[u8]) -> Result<(Outcome, &[u8]), Stop>
    ensures { Gives (λ x. (x.0, x.1.now)) result (pair_at MOST_LONG Abandoned text.now) }
{
    let (home, rest) = long(text)?;
    let (away, rest) = long(rest)?;
    Ok((Outcome::Abandoned(home, away), rest))
}
