use scan_types::{Name, Selection};

/// How many selections there are: their numbers are 0 to 142.
pub const SELECTIONS: usize = 143;

/// What a quote is for: a selection of a match, in one feed.
#[derive(Clone, Copy, Debug, PartialEq, Eq)]
pub struct Key {
    /// The number of the feed, from 0.
    pub feed: u8,
    /// The name of the match.
    pub match_name: Name,
    /// What a bet backs.
    pub selection: Selection,
}
