//! What a feed is read from.
ghost use Rattle.std.specs.Prelude.{◌≡◌, ◌<◌, ◌≤◌, ◌^◌, ℕ, List, Option, length, take, IfOk, IsOk, OnOk, OnErr};
ghost use Rattle.std.specs.Io.KnownBytes.{Consumes, Keeps, IsAtEnd};
ghost use Rattle.desk_io.specs.Faults.{Rose};
ghost use Rattle.desk_io.specs.Source.{GivesUpTo};

use crate::ReadFailed;

/// Bytes that are read from front to back.
pub trait Source {
    /// How many reads have failed. The count rises with each failed read and with no other, and stands
    /// still at `u64::MAX`.
    ghost faults: { Self → ℕ };

    /// The bytes that are left to read. `None` claims nothing.
    ghost left: { Self → Option (List ℕ) };

    /// The promise that no read fails from here on.
    ghost never_fails: { Self → Type 0 };

    /// Reads may lead from the first value to the second.
    ghost later: { Self → Self → Type 0 };

    /// Puts the next bytes at the front of `buf`, and answers how many they are: 0 only where none are
    /// left. What the rest of `buf` has then is left open.
    fn read(&mut self, buf: &mut [u8]) -> Result<usize, ReadFailed>
        requires { 0 < length buf.old }
        ensures bound { IfOk result (λ n. n ≤ length buf.old) }
        ensures given { IfOk result (λ n.
            Consumes (left self.old) (left self.new) (take n buf.new)) }
        ensures end { IfOk result (λ n. n ≡ 0 → IsAtEnd (left self.new)) }
        ensures nothing_taken { OnErr result (Keeps (left self.old) (left self.new)) }
        ensures failed { OnErr result (Rose (faults self.old) (faults self.new)) }
        ensures no_fault { OnOk result (faults self.new ≡ faults self.old) }
        ensures faults_kept { faults self.old ≤ faults self.new }
        ensures faults_fit { faults self.new < 2 ^ 64 }
        ensures is_later { later self.old self.new }
        ensures promised { never_fails self.old → IsOk result }
        ensures promise_kept { never_fails self.old → never_fails self.new };

    ghost later_reflexive: { (source : Self) → later source source };

    ghost later_transitive: { (first second third : Self) →
        later first second → later second third → later first third };

    /// What was read stays read.
    ghost later_gives: { (before after : Self) →
        later before after → GivesUpTo (left before) (left after) };

    ghost later_faults: { (before after : Self) →
        later before after → faults before ≤ faults after };

    ghost later_promise: { (before after : Self) →
        later before after → never_fails before → never_fails after };
}
