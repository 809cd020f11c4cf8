use scan_types::{Name, Odds, Selection};

/// What a line does to the offer that it names.
#[derive(Clone, Copy, Debug, PartialEq, Eq)]
pub enum Change {
    /// Offers these odds, up to a stake limit of 1 to `MOST_LIMIT` minor units.
    Quote(Odds, u32),
    /// Withdraws the offer.
    Withdraw,
}

/// A line of a feed that was accepted.
#[derive(Clone, Copy, Debug, PartialEq, Eq)]
pub struct Accepted {
    /// The number of the line, from 2: line 1 is the header.
    pub line: u32,
    /// The match that it names.
    pub match_name: Name,
    /// The bet on the match that it names.
    pub selection: Selection,
    /// What it does to the offer of the book on that bet.
    pub change: Change,
}
