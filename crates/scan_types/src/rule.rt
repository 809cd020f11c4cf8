/// How a book settles the bets on a match that is abandoned.
#[derive(Clone, Copy, Debug, PartialEq, Eq, PartialOrd, Ord, Hash)]
pub enum VoidRule {
    /// All stakes are given back.
    Void,
    /// Bets are settled on the score at abandonment.
    Score,
    /// What is already decided stands, and the rest is given back.
    Decided,
}
