//! Writing the text of a finding.
ghost use Rattle.std.specs.Prelude.{◌≡◌, ◌≤◌, ◌∷◌, ◌++◌, OnOk, OnErr, decimal};
ghost use Rattle.std.specs.List.{flat_map};
ghost use Rattle.std.specs.Io.KnownBytes.{Appends};
ghost use Rattle.desk_io.specs.Faults.{Rose};
ghost use Rattle.desk_io.specs.Sink.{AppendsPrefix};
ghost use Rattle.finding_definitions.specs.Text.{outcome_fields, entry_fields, stake_fields, measure_fields, fraction_fields, stage_number, run_fields, place_fields, finding_text};
ghost use Rattle.text_out.specs.Written.{Wrote, Gathered, spaced};

use desk_io::{Sink, WriteFailed};
use finding_definitions::{Finding, Measure, Parts, Stage, Stakes, WideAt};
use itoa::Buffer;
use scan_types::Outcome;
use text_out::TextOut;

/// Writes the one text of a finding, which is `finding_text` of `finding_definitions`, without a line feed. At `Err` a write
/// failed, and some of the text was written, from its front on, and not all.
///
/// O(text), with a `put_all` for each piece of `PIECE_BYTES` bytes and one for the rest. Takes no memory of its own.
pub fn put_finding<K: Sink>(finding: &Finding, sink: &mut K) -> Result<(), WriteFailed>
    ensures written { OnOk result (Appends (K.written sink.old) (K.written sink.new) (finding_text finding.now)) }
    ensures cut_short { OnErr result (AppendsPrefix (K.written sink.old) (K.written sink.new) (finding_text finding.now)) }
    ensures failed { OnErr result (Rose (K.faults sink.old) (K.faults sink.new)) }
    ensures no_fault { OnOk result (K.faults sink.new ≡ K.faults sink.old) }
    ensures faults_kept { K.faults sink.old ≤ K.faults sink.new }
{
    put_whole(finding, sink)
}

// The text of the finding, gathered and then handed on.
fn put_whole<K: Sink>(finding: &Finding, sink: &mut K) -> Result<(), WriteFailed>
    ensures { Wrote (K.written sink.old) (K.written sink.new) (K.faults sink.old) (K.faults sink.new) (finding_text finding.now) result }
{
    let mut held = TextOut::new();
    gather_finding(finding, &mut held, sink)?;
    held.hand_on(sink)
}

/// Puts the one text of a finding behind the text that is held, which is handed on each time it is full. So the texts of several calls
/// go out in the same writes.
///
/// O(text), with a `put_all` for each piece of `PIECE_BYTES` bytes. Takes no memory of its own.
pub fn gather_finding<K: Sink>(
    finding: &Finding,
    held: &mut TextOut,
    sink: &mut K,
) -> Result<(), WriteFailed>
    ensures { Gathered (K.written sink.old) (K.written sink.new) (K.faults sink.old) (K.faults sink.new) held.old held.new (finding_text finding.now) result }
{
    match finding {
        Finding::Arb(stakes) => {
            held.gather(b"arb", sink)?;
            put_stakes(stakes, held, sink)
        }
        Finding::Coherent(measure) => {
            held.gather(b"coherent", sink)?;
            put_measure(measure, held, sink)
        }
        Finding::Thin(parts, measure) => {
            held.gather(b"thin", sink)?;
            put_bound(parts, measure, held, sink)
        }
        Finding::Narrow(parts, measure) => {
            held.gather(b"narrow", sink)?;
            put_bound(parts, measure, held, sink)
        }
        Finding::Wide { stage, pivots, at } => {
            held.gather(b"wide", sink)?;
            put_wide(*stage, *pivots, *at, held, sink)
        }
        Finding::OutOfPivots { stage, pivots } => {
            held.gather(b"out-of-pivots", sink)?;
            put_run(*stage, *pivots, held, sink)
        }
    }
}

// A space and the number.
fn put_number<K: Sink>(number: u64, held: &mut TextOut, sink: &mut K) -> Result<(), WriteFailed>
    ensures { Gathered (K.written sink.old) (K.written sink.new) (K.faults sink.old) (K.faults sink.new) held.old held.new (32 ∷ decimal number) result }
{
    let mut buffer = Buffer::new();
    held.gather(b" ", sink)?;
    held.gather(buffer.format(number).as_bytes(), sink)
}

// Two numbers, each after a space.
fn put_pair<K: Sink>(
    first: u64,
    second: u64,
    held: &mut TextOut,
    sink: &mut K,
) -> Result<(), WriteFailed>
    ensures { Gathered (K.written sink.old) (K.written sink.new) (K.faults sink.old) (K.faults sink.new) held.old held.new ((32 ∷ decimal first) ++ (32 ∷ decimal second)) result }
{
    put_number(first, held, sink)?;
    put_number(second, held, sink)
}

// How many stakes there are, and the stakes.
fn put_stakes<K: Sink>(stakes: &Stakes, held: &mut TextOut, sink: &mut K) -> Result<(), WriteFailed>
    ensures { Gathered (K.written sink.old) (K.written sink.new) (K.faults sink.old) (K.faults sink.new) held.old held.new (spaced (stake_fields stakes.now)) result }
{
    let items = stakes.items();
    put_number(items.len() as u64, held, sink)?;
    put_short_items(items, held, sink)
}

// Numbers, each after a space.
fn put_short_items<K: Sink>(
    items: &[u32],
    held: &mut TextOut,
    sink: &mut K,
) -> Result<(), WriteFailed>
    ensures { Gathered (K.written sink.old) (K.written sink.new) (K.faults sink.old) (K.faults sink.new) held.old held.new (flat_map (λ item. 32 ∷ decimal item) items.now) result }
{
    for item in items {
        put_number(*item as u64, held, sink)?;
    }
    Ok(())
}

// Parts and weights.
fn put_bound<K: Sink>(
    parts: &Parts,
    measure: &Measure,
    held: &mut TextOut,
    sink: &mut K,
) -> Result<(), WriteFailed>
    ensures { Gathered (K.written sink.old) (K.written sink.new) (K.faults sink.old) (K.faults sink.new) held.old held.new (spaced (fraction_fields parts.now ++ measure_fields measure.now)) result }
{
    put_parts(parts, held, sink)?;
    put_measure(measure, held, sink)
}

// The divisor, how many parts there are, and the parts.
fn put_parts<K: Sink>(parts: &Parts, held: &mut TextOut, sink: &mut K) -> Result<(), WriteFailed>
    ensures { Gathered (K.written sink.old) (K.written sink.new) (K.faults sink.old) (K.faults sink.new) held.old held.new (spaced (fraction_fields parts.now)) result }
{
    let items = parts.items();
    put_pair(parts.divisor(), items.len() as u64, held, sink)?;
    put_long_items(items, held, sink)
}

// Numbers, each after a space.
fn put_long_items<K: Sink>(
    items: &[u64],
    held: &mut TextOut,
    sink: &mut K,
) -> Result<(), WriteFailed>
    ensures { Gathered (K.written sink.old) (K.written sink.new) (K.faults sink.old) (K.faults sink.new) held.old held.new (flat_map (λ item. 32 ∷ decimal item) items.now) result }
{
    for item in items {
        put_number(*item, held, sink)?;
    }
    Ok(())
}

// How many entries there are, and each outcome with its weight.
fn put_measure<K: Sink>(
    measure: &Measure,
    held: &mut TextOut,
    sink: &mut K,
) -> Result<(), WriteFailed>
    ensures { Gathered (K.written sink.old) (K.written sink.new) (K.faults sink.old) (K.faults sink.new) held.old held.new (spaced (measure_fields measure.now)) result }
{
    let items = measure.items();
    put_number(items.len() as u64, held, sink)?;
    put_entries(items, held, sink)
}

// Outcomes, each with its weight.
fn put_entries<K: Sink>(
    entries: &[(Outcome, u64)],
    held: &mut TextOut,
    sink: &mut K,
) -> Result<(), WriteFailed>
    ensures { Gathered (K.written sink.old) (K.written sink.new) (K.faults sink.old) (K.faults sink.new) held.old held.new (flat_map (λ entry. spaced (entry_fields entry)) entries.now) result }
{
    for entry in entries {
        put_entry(entry, held, sink)?;
    }
    Ok(())
}

// An outcome with its weight.
fn put_entry<K: Sink>(
    entry: &(Outcome, u64),
    held: &mut TextOut,
    sink: &mut K,
) -> Result<(), WriteFailed>
    ensures { Gathered (K.written sink.old) (K.written sink.new) (K.faults sink.old) (K.faults sink.new) held.old held.new (spaced (entry_fields entry.now)) result }
{
    put_outcome(entry.0, held, sink)?;
    put_number(entry.1, held, sink)
}

// How the match ends and its goals.
fn put_outcome<K: Sink>(
    outcome: Outcome,
    held: &mut TextOut,
    sink: &mut K,
) -> Result<(), WriteFailed>
    ensures { Gathered (K.written sink.old) (K.written sink.new) (K.faults sink.old) (K.faults sink.new) held.old held.new (spaced (outcome_fields outcome)) result }
{
    match outcome {
        Outcome::Full(home, away) => {
            held.gather(b" full", sink)?;
            put_pair(home, away, held, sink)
        }
        Outcome::Abandoned(home, away) => {
            held.gather(b" abandoned", sink)?;
            put_pair(home, away, held, sink)
        }
    }
}

// The run of a judgement, its pivots, and where a number left its range.
fn put_wide<K: Sink>(
    stage: Stage,
    pivots: u32,
    place: WideAt,
    held: &mut TextOut,
    sink: &mut K,
) -> Result<(), WriteFailed>
    ensures { Gathered (K.written sink.old) (K.written sink.new) (K.faults sink.old) (K.faults sink.new) held.old held.new (spaced (run_fields stage pivots ++ place_fields place)) result }
{
    put_run(stage, pivots, held, sink)?;
    put_place(place, held, sink)
}

// The run of a judgement, and its pivots.
fn put_run<K: Sink>(
    stage: Stage,
    pivots: u32,
    held: &mut TextOut,
    sink: &mut K,
) -> Result<(), WriteFailed>
    ensures { Gathered (K.written sink.old) (K.written sink.new) (K.faults sink.old) (K.faults sink.new) held.old held.new (spaced (run_fields stage pivots)) result }
{
    put_pair(number_of(stage), pivots as u64, held, sink)
}

// The number of the run.
fn number_of(stage: Stage) -> u64
    ensures { result ≡ stage_number stage }
{
    match stage {
        Stage::First => 1,
        Stage::Slack => 2,
        Stage::Plain => 3,
    }
}

// Where a number left its range.
fn put_place<K: Sink>(place: WideAt, held: &mut TextOut, sink: &mut K) -> Result<(), WriteFailed>
    ensures { Gathered (K.written sink.old) (K.written sink.new) (K.faults sink.old) (K.faults sink.new) held.old held.new (spaced (place_fields place)) result }
{
    match place {
        WideAt::Entry { row, column } => {
            held.gather(b" entry", sink)?;
            put_pair(row as u64, column as u64, held, sink)
        }
        WideAt::Weight(entry) => {
            held.gather(b" weight", sink)?;
            put_number(entry as u64, held, sink)
        }
        WideAt::Stake(offer) => {
            held.gather(b" stake", sink)?;
            put_number(offer as u64, held, sink)
        }
    }
}
