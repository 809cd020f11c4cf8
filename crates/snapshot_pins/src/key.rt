use scan_types::{Name, Selection};

/// Which cell: a selection of a feed at a match.
#[derive(Clone, Copy, Debug)]
pub struct CellKey {
    /// The name of the match.
    pub match_name: Name,
    /// The number of the feed, from 0.
    pub feed: u8,
    /// What a bet backs.
    pub selection: Selection,
}
