//! Sizes of a reader's buffers.

/// Bytes that one read is offered room for.
pub const READ_BYTES: usize = 4_096;

/// Bytes that a reader makes room for: `MOST_FEED_BYTES`, and one read more.
pub const MOST_TAKEN: usize = 4_198_400;
