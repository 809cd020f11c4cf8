ghost use Rattle.std.specs.Prelude.{◌≡◌, ℕ, List, length};

/// A state that stands for a list of entries and has a part that must not change.
/// Each entry has its caller's number.
/// The lock's code never reads the list or the fixed part: only its proofs do.
pub trait Kept: Drop {
    /// What callers add to the list, one entry at a time.
    type Entry;
    /// The type of the part that must not change.
    type Fixed;

    /// The list that the state stands for.
    ghost entries: { Self → List Self.Entry };

    /// The part that must not change.
    ghost fixed: { Self → Self.Fixed };

    /// The number of the caller that added an entry.
    ghost caller: { Self.Entry → ℕ };

    /// How many entries the list has. Each commit calls it during the turn, so it should cost almost nothing.
    fn count(&self) -> u64
        ensures { result ≡ length (entries self.now) };
}
