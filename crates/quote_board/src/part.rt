use scan_types::{MOST_FEEDS, VoidRule};

/// What never changes of a board.
#[derive(Drop)]
pub struct BoardPart<W> {
    /// How each feed's book settles abandoned matches, by feed number, and none beyond the last feed.
    pub rules: [Option<VoidRule>; MOST_FEEDS],
    /// Which findings may be filed.
    pub law: W,
}
