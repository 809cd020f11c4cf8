use crate::feed_part::FeedParts;
use crate::match_part::MatchParts;

/// All that a report says.
#[derive(Debug, Drop)]
pub struct Report {
    /// The pivots that one run of a program might take.
    pub pivots: u32,
    /// The feeds, by their numbers.
    pub feeds: FeedParts,
    /// The matches that some feed quoted, rising by the bytes of their names.
    pub matches: MatchParts,
}
