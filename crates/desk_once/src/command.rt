//! The command `once`.
ghost use Rattle.std.specs.Prelude.{ℕ, All, ◌≡◌, ◌≢◌, ◌<◌, ◌≤◌, ◌⊎◌, [], length, map, string_bytes};
ghost use Rattle.scan_types.specs.declared.limits.TheConstants.{MOST_FEEDS, MOST_PIVOTS};
ghost use Rattle.board_definitions.specs.declared.event.FeedStop.TheVariants as stops;
ghost use Rattle.desk_io.specs.Faults.{Rose};
ghost use Rattle.desk_definitions.specs.declared.status.TheConstants.{DONE, NOT_OPENED, NOT_READ, NOT_WRITTEN, BAD_HEADER, WANT_OF_MEMORY, CUT};
ghost use Rattle.desk_definitions.specs.Seen.{opener_seen, sink_seen};
ghost use Rattle.desk_definitions.specs.Opening.{FailsAt, LacksSource, told_bytes};
ghost use Rattle.desk_definitions.specs.Course.{IsCourse, WritesNothing};
ghost use Rattle.desk_definitions.specs.Causes.{AreGoodFeeds, EndsWithout, HasFailedRead, HasNoFault, HaveRun, HaveTwins, IsOrYields, IsReported, NoneStops, SomeStop};
ghost use Rattle.desk_laws.specs.Histories.{HasWholeHistory};

use crate::run::run;
use desk_definitions::DeskEnd;
use desk_io::{Opener, Sink};
use desk_laws::{bodies_are_in_the_history, statuses_have_causes};
use std::alloc::Global;

/// Opens the feeds of these names, reads them one after another, each to its end or to what stops it before, judges each match that is
/// due, and writes the report; or one error line, with the status of its cause; or, if no memory is left, nothing.
///
/// Takes 1 to `MOST_FEEDS` names, and 1 to `MOST_PIVOTS` pivots that each run of a program may take.
pub fn once<O: Opener, K: Sink>(
    alloc: Global,
    names: &[String],
    pivots: u32,
    opener: &mut O,
    sink: &mut K,
) -> DeskEnd<O::S>
    requires some { 1 ≤ length names.now }
    requires few { length names.now ≤ MOST_FEEDS }
    requires least_pivots { 1 ≤ pivots }
    requires most_pivots { pivots ≤ MOST_PIVOTS }

    // What a run is, whole: what is due, how it was written, and what is handed out.
    ensures course { IsCourse O.S.left O.S.faults (map string_bytes names.now) pivots
        (opener_seen O.told O.promises O.opens_told O.faults opener.old opener.new)
        (record { ends = result.feeds.items; history = result.history.items }) result.status
        (sink_seen K.written K.faults sink.old sink.new) }

    // If the bodies were read and memory was left, the history has each accepted line of each feed once and in order, with one end a feed;
    // each finding that was filed is right for the sheet that its pin saw; and each match has a finding filed after its last change.
    ensures history { HaveRun (length names.now) result.feeds.items → result.status ≢ WANT_OF_MEMORY →
        HasWholeHistory O.S.left O.S.faults (told_bytes (O.told opener.old) (map string_bytes names.now)) (length names.now) pivots
        (record { ends = result.feeds.items; history = result.history.items }) }

    // Status 0 comes only if each named feed was read to its end; the sink then got the report of what the sources gave.
    ensures done { result.status ≡ DONE → IsReported O.S.left O.S.faults (told_bytes (O.told opener.old) (map string_bytes names.now))
        (length names.now) pivots (record { ends = result.feeds.items; history = result.history.items })
        (sink_seen K.written K.faults sink.old sink.new) }

    // The converse: good feeds of different books give status 0, unless an opening, a read or a write fails or no memory is left.
    ensures complete { AreGoodFeeds (told_bytes (O.told opener.old) (map string_bytes names.now)) (length names.now) →
        HasNoFault O.S.faults (opener_seen O.told O.promises O.opens_told O.faults opener.old opener.new) result.feeds.items
        (sink_seen K.written K.faults sink.old sink.new) → (result.status ≡ DONE) ⊎ (result.status ≡ WANT_OF_MEMORY) }

    // Status 3 comes only if an opening failed. It is due, and no feed is begun, if the opener has no source for one of the names. The
    // opener's count of faults rises with no other status, but for the 5 or 7 in its place.
    ensures not_opened { result.status ≡ NOT_OPENED →
        (k : ℕ) × FailsAt (map string_bytes names.now) (opener_seen O.told O.promises O.opens_told O.faults opener.old opener.new) k }
    ensures not_opened_due { (k : ℕ) → k < length names.now → LacksSource (O.told opener.old) (map string_bytes names.now) k → IsOrYields NOT_OPENED result.status }
    ensures none_begun { (k : ℕ) → k < length names.now → LacksSource (O.told opener.old) (map string_bytes names.now) k → result.feeds.items ≡ [] }
    ensures opener_faults { (O.faults opener.new ≡ O.faults opener.old) ⊎ IsOrYields NOT_OPENED result.status }

    // Status 4 comes only if a read of a feed failed, and is due if a feed that was begun stopped so. No failed read is hidden: a source
    // whose feed has another stop counted none.
    ensures not_read { result.status ≡ NOT_READ → HasFailedRead O.S.faults result.feeds.items }
    ensures not_read_due { SomeStop stops.ReadFault result.feeds.items → IsOrYields NOT_READ result.status }
    ensures source_faults { All (λ end. end.stop ≢ stops.ReadFault → O.S.faults end.source ≡ 0) result.feeds.items }
    ensures read_as_promised { O.promises opener.old → result.status ≢ NOT_READ }

    // Status 5 comes if a write failed, and only then.
    ensures not_written { result.status ≡ NOT_WRITTEN → Rose (K.faults sink.old) (K.faults sink.new) }
    ensures else_written { result.status ≢ NOT_WRITTEN → K.faults sink.new ≡ K.faults sink.old }

    // Status 6 comes if the first line of a feed is no header, or two feeds are of one book, and only then.
    ensures bad_header { result.status ≡ BAD_HEADER →
        EndsWithout stops.BadHeader result.feeds.items ⊎ HaveTwins (length names.now) result.feeds.items }
    ensures bad_header_due { EndsWithout stops.BadHeader result.feeds.items → IsOrYields BAD_HEADER result.status }
    ensures one_book_due { HaveTwins (length names.now) result.feeds.items → IsOrYields BAD_HEADER result.status }

    // Status 8 comes if bodies were read, no read failed, and a limit of size was passed, and only then.
    ensures cut { result.status ≡ CUT → HaveRun (length names.now) result.feeds.items × NoneStops stops.ReadFault result.feeds.items
        × SomeStop stops.Cut result.feeds.items }
    ensures cut_due { HaveRun (length names.now) result.feeds.items → NoneStops stops.ReadFault result.feeds.items →
        SomeStop stops.Cut result.feeds.items → IsOrYields CUT result.status }

    // At status 7 nothing was written.
    ensures no_memory { result.status ≡ WANT_OF_MEMORY → WritesNothing (sink_seen K.written K.faults sink.old sink.new) }
{
    prove!({
        statuses_have_causes::<O, K>();
        bodies_are_in_the_history::<O, K>();
        true
    });
    run(alloc, names, pivots, opener, sink)
}
