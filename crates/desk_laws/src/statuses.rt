//! Each status has its cause, and each cause its status. The function is empty: its clause is the law.

ghost use Rattle.std.specs.Prelude.{◌≢◌, ℕ, List};
ghost use Rattle.desk_definitions.specs.declared.status.TheConstants.{NOT_READ};
ghost use Rattle.desk_definitions.specs.Seen.{opener_seen, sink_seen};
ghost use Rattle.desk_definitions.specs.Course.{Outcome, IsCourse};
ghost use Rattle.desk_definitions.specs.Causes.{AreCounted, HasCauses};

use desk_io::{Opener, Sink};

/// Whatever the opener and the sink are: each status of a run has its cause, and each cause has its status, which yields only to a failed
/// write and to want of memory. What the bytes do not tell is a premise: that the sources count their failed reads, and keep the opener's
/// promise.
pub fn statuses_have_causes<O: Opener, K: Sink>()
    ensures { (names : List (List ℕ)) (budget status : ℕ) (before after : O) (sink_before sink_after : K) (out : Outcome O.S) →
        IsCourse O.S.left O.S.faults names budget (opener_seen O.told O.promises O.opens_told O.faults before after) out status (sink_seen K.written K.faults sink_before sink_after) →
        AreCounted O.S.faults out.ends → (O.promises before → status ≢ NOT_READ) →
        HasCauses O.S.left O.S.faults names budget (opener_seen O.told O.promises O.opens_told O.faults before after) out status (sink_seen K.written K.faults sink_before sink_after) }
{}
