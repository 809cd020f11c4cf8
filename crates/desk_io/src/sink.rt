//! What a report is written to.
ghost use Rattle.std.specs.Prelude.{◌≡◌, ◌<◌, ◌≤◌, ◌^◌, ℕ, List, Option, length, take, IfOk, OnOk, OnErr};
ghost use Rattle.std.specs.Io.KnownBytes.{Appends, Keeps};
ghost use Rattle.desk_io.specs.Faults.{Rose};

use crate::WriteFailed;

/// Takes bytes one after another.
pub trait Sink {
    /// How many writes have failed. The count rises with each failed write and with no other, and stands
    /// still at `u64::MAX`.
    ghost faults: { Self → ℕ };

    /// The bytes that were written, from the first on. `None` claims nothing.
    ghost written: { Self → Option (List ℕ) };

    /// Appends some of the bytes, from the first on, and answers how many: at least one. A write that could
    /// take none fails.
    fn write(&mut self, buf: &[u8]) -> Result<usize, WriteFailed>
        requires { 0 < length buf.now }
        ensures some { IfOk result (λ n. 0 < n) }
        ensures bound { IfOk result (λ n. n ≤ length buf.now) }
        ensures appended { IfOk result (λ n.
            Appends (written self.old) (written self.new) (take n buf.now)) }
        ensures nothing_appended { OnErr result (Keeps (written self.old) (written self.new)) }
        ensures failed { OnErr result (Rose (faults self.old) (faults self.new)) }
        ensures no_fault { OnOk result (faults self.new ≡ faults self.old) }
        ensures faults_kept { faults self.old ≤ faults self.new }
        ensures faults_fit { faults self.new < 2 ^ 64 };
}
