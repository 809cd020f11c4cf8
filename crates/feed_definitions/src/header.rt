use scan_types::{Name, VoidRule};

/// The first line of a feed: whose quotes these are, and how the book settles abandoned matches.
#[derive(Clone, Copy, Debug, PartialEq, Eq)]
pub struct Header {
    /// The name of the book.
    pub book: Name,
    /// How the book settles bets if the match is abandoned.
    pub rule: VoidRule,
}
