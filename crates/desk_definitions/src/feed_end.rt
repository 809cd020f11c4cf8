use board_definitions::FeedStop;
use feed_definitions::{Header, Refusals};

/// A feed that was begun, as it was left.
#[derive(Drop)]
pub struct FeedEnd<S: Drop> {
    /// The number of the feed, from 0, in the order of the names.
    pub feed: u8,
    /// Its header, if that was read.
    pub header: Option<Header>,
    /// How many lines were answered, the header included: at most `MOST_LINES`.
    pub lines: u32,
    /// The refused lines, in the order of the feed.
    pub refusals: Refusals,
    /// How the reading of it ended.
    pub stop: FeedStop,
    /// The source, with what was not taken of it.
    pub source: S,
}
