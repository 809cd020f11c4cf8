use crate::feed_end::FeedEnd;
use board_definitions::Entry;

/// How a run ended.
#[derive(Drop)]
pub struct DeskEnd<S: Drop> {
    /// The exit status.
    pub status: u8,
    /// The whole history of the board, as far as the feeds were begun.
    pub history: Vec<Entry>,
    /// The ends of the feeds that were begun, in order.
    pub feeds: Vec<FeedEnd<S>>,
}
