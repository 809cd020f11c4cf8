/// How one of the two halves of a bet is settled.
#[derive(Clone, Copy, Debug, PartialEq, Eq, PartialOrd, Ord, Hash)]
pub enum LegResult {
    /// The stake times the odds comes back.
    Win,
    /// The stake comes back.
    Push,
    /// Nothing comes back.
    Lose,
}
