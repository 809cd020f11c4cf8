//! The text of a feed.
ghost use Rattle.std.specs.Prelude.{◌≡◌, ◌≤◌, OnOk, OnErr, []};
ghost use Rattle.std.specs.List.{flat_map};
ghost use Rattle.std.specs.Io.KnownBytes.{Appends};
ghost use Rattle.desk_io.specs.Faults.{Rose};
ghost use Rattle.desk_io.specs.Sink.{AppendsPrefix};
ghost use Rattle.text_out.specs.Written.{Wrote, Gathered};
ghost use Rattle.scan_types.specs.declared.limits.TheConstants.{MOST_LINES};
ghost use Rattle.feed_gen.specs.declared.limits.TheConstants.{MOST_MADE_MATCHES};
ghost use Rattle.feed_gen.specs.Generated.{generated_text, lines_from, line_text};

use crate::draws::first_state;
use crate::lines::{header_line, made_line};
use crate::making::{mark, next_line, none_stands};
use desk_io::{Sink, WriteFailed};
use text_out::TextOut;

/// Writes the feed of this number, 0 to 7, that is made from a seed: over 1 to `MOST_MADE_MATCHES` matches, of 1 to `MOST_LINES` lines, the
/// header among them. Equal numbers give equal bytes on every machine. At `Err` a write failed, and a front of the text was written.
///
/// O(lines), with a `put_all` for each `PIECE_BYTES` bytes. Takes no memory.
pub fn generate<K: Sink>(
    seed: u64,
    feed: u8,
    matches: u32,
    lines: u32,
    sink: &mut K,
) -> Result<(), WriteFailed>
    requires feed { feed ≤ 7 }
    requires some_matches { 1 ≤ matches }
    requires few_matches { matches ≤ MOST_MADE_MATCHES }
    requires some_lines { 1 ≤ lines }
    requires few_lines { lines ≤ MOST_LINES }
    ensures written { OnOk result (Appends (K.written sink.old) (K.written sink.new) (generated_text seed feed matches lines)) }
    ensures cut_short { OnErr result (AppendsPrefix (K.written sink.old) (K.written sink.new) (generated_text seed feed matches lines)) }
    ensures failed { OnErr result (Rose (K.faults sink.old) (K.faults sink.new)) }
    ensures no_fault { OnOk result (K.faults sink.new ≡ K.faults sink.old) }
    ensures faults_kept { K.faults sink.old ≤ K.faults sink.new }
{
    put_feed(seed, feed, matches, lines, sink)
}

// The text of the feed, gathered and then handed on.
fn put_feed<K: Sink>(
    seed: u64,
    feed: u8,
    matches: u32,
    lines: u32,
    sink: &mut K,
) -> Result<(), WriteFailed>
    requires feed { feed ≤ 7 }
    requires some_matches { 1 ≤ matches }
    requires few_matches { matches ≤ MOST_MADE_MATCHES }
    requires some_lines { 1 ≤ lines }
    ensures { Wrote (K.written sink.old) (K.written sink.new) (K.faults sink.old) (K.faults sink.new) (generated_text seed feed matches lines) result }
{
    let mut held = TextOut::new();
    gather_feed(seed, feed, matches, lines, &mut held, sink)?;
    held.hand_on(sink)
}

// The header and the lines behind it.
fn gather_feed<K: Sink>(
    seed: u64,
    feed: u8,
    matches: u32,
    lines: u32,
    held: &mut TextOut,
    sink: &mut K,
) -> Result<(), WriteFailed>
    requires feed { feed ≤ 7 }
    requires some_matches { 1 ≤ matches }
    requires few_matches { matches ≤ MOST_MADE_MATCHES }
    requires some_lines { 1 ≤ lines }
    ensures { Gathered (K.written sink.old) (K.written sink.new) (K.faults sink.old) (K.faults sink.new) held.old held.new (generated_text seed feed matches lines) result }
{
    held.gather(header_line(feed).bytes(), sink)?;
    put_lines(first_state(seed, feed), matches, lines - 1, held, sink)
}

// So many lines behind the header.
fn put_lines<K: Sink>(
    first: u64,
    matches: u32,
    count: u32,
    held: &mut TextOut,
    sink: &mut K,
) -> Result<(), WriteFailed>
    requires some_matches { 1 ≤ matches }
    requires few_matches { matches ≤ MOST_MADE_MATCHES }
    ensures { Gathered (K.written sink.old) (K.written sink.new) (K.faults sink.old) (K.faults sink.new) held.old held.new
        (flat_map line_text (lines_from matches count first [])) result }
{
    let mut standing = none_stands();
    let mut state = first;
    for _ in 0..count {
        let (line, next) = next_line(state, matches, &standing);
        mark(&mut standing, &line);
        state = next;
        held.gather(made_line(&line).bytes(), sink)?;
    }
    Ok(())
}
