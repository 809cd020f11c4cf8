//! Reading the text of a finding.
ghost use Rattle.std.specs.Prelude.{◌≡◌, IfOk, IfErr};
ghost use Rattle.finding_definitions.specs.declared.finding.Finding.{Finding};
ghost use Rattle.finding_definitions.specs.declared.finding.WideAt.TheVariants.{Entry};
ghost use Rattle.finding_definitions.specs.declared.finding.Finding.TheVariants.{OutOfPivots};
ghost use Rattle.finding_definitions.specs.Text.{finding_text};
ghost use Rattle.finding_definitions.specs.Readable.{IsReadable};
ghost use Rattle.certificates.specs.Faults.{IsFaultOf, IsReadAs};
ghost use Rattle.certificates.specs.Reading.{stage_at, run_at, pair_at, place_at, wide_at, made_at, finding_at, whole_at, MOST_SHORT};
ghost use Rattle.certificates.specs.Gives.{Gives};

use crate::fault::FindingFault;
use crate::lists::{measure, parts, stakes};
use crate::stop::Stop;
use crate::words::{begins_with, short, word};
use finding_definitions::{Finding, Stage, WideAt};
use std::alloc::Global;

/// Reads the text of a finding, all of it. The counts must be at most `MOST_OFFERS` and `MOST_MEASURE_ENTRIES`; stakes,
/// pivots, rows, columns and places must fit 32 bits, the other numbers 64. Nothing else of the finding is tested.
///
/// `BadAt` if the text is no such text, `WantOfMemory` only if no memory is left. The form is `finding_text` and the limits
/// are `IsReadable` of `finding_definitions`. O(text); takes memory for the lists of the finding.
pub fn read_finding(alloc: Global, text: &[u8]) -> Result<Finding, FindingFault>
    // What is read is written so.
    ensures read_then_put { IfOk result (λ finding. IsReadable finding × (finding_text finding ≡ text.now)) }
    // What is written so is read, unless no memory is left.
    ensures put_then_read { (finding : Finding) → IsReadable finding → finding_text finding ≡ text.now → IsReadAs finding result }
    // Else the fault is at the length of the longest front that begins a finding's text.
    ensures fault { IfErr result (IsFaultOf text.now) }
{
    match whole(alloc, text) {
        Ok(finding) => Ok(finding),
        Err(Stop::WantOfMemory) => Err(FindingFault::WantOfMemory),
        Err(Stop::Left(left)) => Err(FindingFault::BadAt((text.len() - left) as u32)),
    }
}

/// The finding of the whole text.
#[tactic(auto, unfolding(crate::specs::Reading::whole_at))]
fn whole(alloc: Global, text: &[u8]) -> Result<Finding, Stop>
    ensures { Gives (λ x. x) result (whole_at text.now) }
{
    let (finding, rest) = finding(alloc, text)?;
    if !rest.is_empty() {
        return Err(Stop::Left(rest.len()));
    }
    Ok(finding)
}

/// A finding by the first byte of its kind.
#[tactic(auto, unfolding(crate::specs::Reading::finding_at, crate::specs::Reading::bound_at))]
fn finding(alloc: Global, text: &[u8]) -> Result<(Finding, &[u8]), Stop>
    ensures { Gives (λ x. (x.0, x.1.now)) result (finding_at text.now) }
{
    if begins_with(text, b'a') {
        let (stakes, rest) = stakes(alloc, word(text, b"arb")?)?;
        Ok((Finding::Arb(stakes), rest))
    } else if begins_with(text, b'c') {
        let (measure, rest) = measure(alloc, word(text, b"coherent")?)?;
        Ok((Finding::Coherent(measure), rest))
    } else if begins_with(text, b't') {
        let (parts, rest) = parts(alloc, word(text, b"thin")?)?;
        let (measure, rest) = measure(alloc, rest)?;
        Ok((Finding::Thin(parts, measure), rest))
    } else if begins_with(text, b'n') {
        let (parts, rest) = parts(alloc, word(text, b"narrow")?)?;
        let (measure, rest) = measure(alloc, rest)?;
        Ok((Finding::Narrow(parts, measure), rest))
    } else if begins_with(text, b'w') {
        wide(word(text, b"wide")?)
    } else {
        out_of_pivots(word(text, b"out-of-pivots")?)
    }
}

/// The run, its pivots, and where a number left its range.
#[tactic(auto, unfolding(crate::specs::Reading::wide_at))]
fn wide(text: &[u8]) -> Result<(Finding, &[u8]), Stop>
    ensures { Gives (λ x. (x.0, x.1.now)) result (wide_at text.now) }
{
    let ((stage, pivots), rest) = run(text)?;
    let (at, rest) = place(rest)?;
    Ok((Finding::Wide { stage, pivots, at }, rest))
}

/// The run and its pivots.
fn out_of_pivots(text: &[u8]) -> Result<(Finding, &[u8]), Stop>
    ensures { Gives (λ x. (x.0, x.1.now)) result (made_at (λ k. OutOfPivots k.0 k.1) run_at text.now) }
{
    let ((stage, pivots), rest) = run(text)?;
    Ok((Finding::OutOfPivots { stage, pivots }, rest))
}

/// Which run it was, and its pivots.
#[tactic(auto, unfolding(crate::specs::Reading::run_at))]
fn run(text: &[u8]) -> Result<((Stage, u32), &[u8]), Stop>
    ensures { Gives (λ x. (x.0, x.1.now)) result (run_at text.now) }
{
    let (stage, rest) = stage(text)?;
    let (pivots, rest) = short(rest)?;
    Ok(((stage, pivots), rest))
}

/// One of the three runs.
#[tactic(auto, unfolding(crate::specs::Reading::stage_at))]
fn stage(text: &[u8]) -> Result<(Stage, &[u8]), Stop>
    ensures { Gives (λ x. (x.0, x.1.now)) result (stage_at text.now) }
{
    let digit = word(text, b" ")?;
    if begins_with(digit, b'1') {
        Ok((Stage::First, word(digit, b"1")?))
    } else if begins_with(digit, b'2') {
        Ok((Stage::Slack, word(digit, b"2")?))
    } else {
        Ok((Stage::Plain, word(digit, b"3")?))
    }
}

/// Where a number left its range.
#[tactic(auto, unfolding(crate::specs::Reading::place_at, crate::specs::Reading::one_at))]
fn place(text: &[u8]) -> Result<(WideAt, &[u8]), Stop>
    ensures { Gives (λ x. (x.0, x.1.now)) result (place_at text.now) }
{
    let kind = word(text, b" ")?;
    if begins_with(kind, b'e') {
        entry(word(kind, b"entry")?)
    } else if begins_with(kind, b'w') {
        let (entry, rest) = short(word(kind, b"weight")?)?;
        Ok((WideAt::Weight(entry), rest))
    } else {
        let (offer, rest) = short(word(kind, b"stake")?)?;
        Ok((WideAt::Stake(offer), rest))
    }
}

/// The row and the column of an entry.
#[tactic(auto, unfolding(crate::specs::Reading::pair_at))]
fn entry(text: &[u8]) -> Result<(WideAt, &[u8]), Stop>
    ensures { Gives (λ x. (x.0, x.1.now)) result (pair_at MOST_SHORT Entry text.now) }
{
    let (row, rest) = short(text)?;
    let (column, rest) = short(rest)?;
    Ok((WideAt::Entry { row, column }, rest))
}
