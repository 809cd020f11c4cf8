//! What the history of a run has.

ghost use Rattle.std.specs.Prelude.{◌≢◌, ℕ, List, length};
ghost use Rattle.desk_definitions.specs.declared.status.TheConstants.{WANT_OF_MEMORY};
ghost use Rattle.desk_definitions.specs.Seen.{opener_seen, sink_seen};
ghost use Rattle.desk_definitions.specs.Opening.{told_bytes};
ghost use Rattle.desk_definitions.specs.Course.{Outcome, IsCourse};
ghost use Rattle.desk_definitions.specs.Causes.{HaveRun};
ghost use Rattle.desk_laws.specs.Histories.{HasWholeHistory};

use desk_io::{Opener, Sink};
use judging_laws::laws::findings_are_right;

/// Let the bodies of the feeds be read, and memory not be wanting. Then the history has the accepted lines of each feed and its end, once
/// and in order; each filed finding is right for what stood on its match; and each match has a finding filed after its last change.
pub fn bodies_are_in_the_history<O: Opener, K: Sink>()
    ensures { (names : List (List ℕ)) (budget status : ℕ) (before after : O) (sink_before sink_after : K) (out : Outcome O.S) →
        IsCourse O.S.left O.S.faults names budget (opener_seen O.told O.promises O.opens_told O.faults before after) out status (sink_seen K.written K.faults sink_before sink_after) →
        HaveRun (length names) out.ends → status ≢ WANT_OF_MEMORY →
        HasWholeHistory O.S.left O.S.faults (told_bytes (O.told before) names) (length names) budget out }
{
    findings_are_right();
}
