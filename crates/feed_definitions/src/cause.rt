use scan_types::Place;

/// Why a line of a feed is refused.
#[derive(Clone, Copy, Debug, PartialEq, Eq)]
pub enum Cause {
    /// A field is needed, and there is none.
    Missing,
    /// A field stands after the last one that is needed.
    Extra,
    /// The field is none of the words that may stand there.
    UnknownWord,
    /// The field is not a name.
    BadName,
    /// The field does not have the form of a line in quarters of a goal.
    BadLine,
    /// The line is outside the range of its market.
    LineRange,
    /// The field does not have the form of odds.
    BadOdds,
    /// The odds are below 1.001 or above 1000.000.
    OddsRange,
    /// The field does not have the form of a stake limit.
    BadLimit,
    /// The limit is 0 or above 100,000,000.
    LimitRange,
    /// The line has more bytes than a line may have.
    TooLong,
    /// A byte is neither a tab nor printable ASCII.
    NotAscii,
    /// The match is new, and the feed has quoted as many as it may.
    TooManyMatches,
    /// The selection does not stand, and as many selections stand at the match as may.
    TooManyOffers,
    /// The selection that is withdrawn does not stand.
    NotQuoted,
}

/// What is wrong with a line, wherever the line stands.
#[derive(Clone, Copy, Debug, PartialEq, Eq)]
pub struct Fault {
    /// The column, counted in bytes from 1.
    pub column: u32,
    /// Why the line is refused there.
    pub cause: Cause,
}

/// A refused line of a feed.
#[derive(Clone, Copy, Debug, PartialEq, Eq)]
pub struct Refusal {
    /// The number of the line, and the column in it.
    pub place: Place,
    /// Why the line is refused there.
    pub cause: Cause,
}
