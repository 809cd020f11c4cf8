//! What `once` does.
ghost use Rattle.std.specs.Prelude.{◌≡◌, ◌≢◌, ◌≤◌, length, map, string_bytes};
ghost use Rattle.scan_types.specs.declared.limits.TheConstants.{MOST_FEEDS, MOST_PIVOTS};
ghost use Rattle.desk_definitions.specs.declared.status.TheConstants.{NOT_READ};
ghost use Rattle.desk_definitions.specs.Seen.{opener_seen, sink_seen};
ghost use Rattle.desk_once.specs.Counts.{AreCounted};
ghost use Rattle.desk_definitions.specs.Course.{IsCourse};

use crate::books::without_memory;
use crate::opened::with_sources;
use desk_definitions::DeskEnd;
use desk_definitions::status::NOT_OPENED;
use desk_io::{Opener, Sink};
use desk_opening::{NotOpened, open_all};
use desk_texts::{cannot_be_opened, write_text};
use std::alloc::Global;

// What the command does, as one relation, and what a promise that no read fails adds to it.
pub(crate) fn run<O: Opener, K: Sink>(
    alloc: Global,
    names: &[String],
    pivots: u32,
    opener: &mut O,
    sink: &mut K,
) -> DeskEnd<O::S>
    requires some { 1 ≤ length names.now }
    requires few { length names.now ≤ MOST_FEEDS }
    requires least_pivots { 1 ≤ pivots }
    requires most_pivots { pivots ≤ MOST_PIVOTS }
    ensures course { IsCourse O.S.left O.S.faults (map string_bytes names.now) pivots
        (opener_seen O.told O.promises O.opens_told O.faults opener.old opener.new)
        (record { ends = result.feeds.items; history = result.history.items }) result.status
        (sink_seen K.written K.faults sink.old sink.new) }
    ensures promised { O.promises opener.old → result.status ≢ NOT_READ }
    ensures counted { AreCounted O.S.faults result.feeds.items }
{
    match open_all(alloc, names, opener) {
        Ok(sources) => with_sources(alloc, pivots, sources, sink),
        Err(NotOpened::Feed(feed)) => DeskEnd {
            status: write_text(sink, NOT_OPENED, cannot_be_opened(feed).bytes()),
            history: Vec::new(alloc),
            feeds: Vec::new(alloc),
        },
        Err(NotOpened::WantOfMemory) => without_memory(alloc),
    }
}
