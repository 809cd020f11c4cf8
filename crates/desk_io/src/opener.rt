//! What opens feeds.
ghost use Rattle.std.specs.Prelude.{◌≡◌, ◌<◌, ◌≤◌, ◌^◌, ℕ, [], Some, IfOk, IsErrOf, OnOk, OnErr};
ghost use Rattle.desk_io.specs.Faults.{Rose};
ghost use Rattle.desk_io.specs.Opener.{Told, OpensFirst, SameUnderOthers, SameUnderAll};

use crate::{OpenFault, Source};

/// Opens sources by name.
pub trait Opener {
    /// What it opens.
    type S: Source + Drop;

    /// How many openings have failed. The count rises with each opening that fails and with no other, and
    /// stands still at `u64::MAX`.
    ghost faults: { Self → ℕ };

    /// The sources that are still to be opened under a name, in order, each as its bytes. `None` claims
    /// nothing, and stays.
    ghost told: { Self → Told };

    /// The promise that no read fails of a source that is opened from here on.
    ghost promises: { Self → Type 0 };

    /// The promise that from here on an opening fails only under a name that has no source left.
    ghost opens_told: { Self → Type 0 };

    /// Opens the next source under this name. It answers `Failed` where the outside refuses that, or has
    /// no source of this name left, and `WantOfMemory` where the memory for it is not to be had.
    fn open_feed(&mut self, name: &str) -> Result<Self::S, OpenFault>
        ensures fresh { IfOk result (λ source. Self.S.faults source ≡ 0) }
        ensures opened { IfOk result (λ source.
            OpensFirst (told self.old name.now) (told self.new name.now) (Self.S.left source)) }
        ensures others { OnOk result (SameUnderOthers name.now (told self.old) (told self.new)) }
        ensures nothing_opened { OnErr result (SameUnderAll (told self.old) (told self.new)) }
        ensures unchanged { IsErrOf result OpenFault.WantOfMemory → self.new ≡ self.old }
        ensures failed { IsErrOf result OpenFault.Failed → Rose (faults self.old) (faults self.new) }
        ensures no_fault { OnOk result (faults self.new ≡ faults self.old) }
        ensures faults_kept { faults self.old ≤ faults self.new }
        ensures faults_fit { faults self.new < 2 ^ 64 }
        ensures promised { promises self.old → IfOk result (λ source. Self.S.never_fails source) }
        ensures promise_kept { promises self.old → promises self.new }
        ensures none_left { opens_told self.old →
            IsErrOf result OpenFault.Failed → told self.old name.now ≡ Some [] }
        ensures opens_told_kept { opens_told self.old → opens_told self.new };
}
