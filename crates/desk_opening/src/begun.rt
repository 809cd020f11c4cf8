use desk_definitions::FeedEnd;
use feed_definitions::{Header, Refusal};
use feed_lines::FeedReader;

/// A feed whose header was read, and no more.
#[derive(Drop)]
pub struct Begun<S: Drop> {
    /// The header.
    pub header: Header,
    /// The reader of the feed.
    pub reader: FeedReader<S>,
}

/// Why a feed has no header.
#[derive(Clone, Copy, Debug, PartialEq, Eq)]
pub enum HeaderStop {
    /// A read failed.
    ReadFault,
    /// The first line is no header.
    BadHeader(Refusal),
    /// No memory is left.
    NoMemory,
}

/// Feeds of which not all headers were read.
#[derive(Drop)]
pub struct NoHeaders<S: Drop> {
    /// The feeds that were begun, in order: without a header only the last one, with the stop `NoMemory` perhaps none.
    pub ends: Vec<FeedEnd<S>>,
    /// Why the last one has no header.
    pub stop: HeaderStop,
}

/// A feed that has no header.
#[derive(Drop)]
pub struct NoHeader<S: Drop> {
    /// The feed as it was left.
    pub end: FeedEnd<S>,
    /// Why it has no header.
    pub stop: HeaderStop,
}
