//! The reader of one feed: bytes of a source in, one step after another out.
//!
//! - `reader`: `FeedReader`, whose steps are those of the feed text whatever pieces it comes in.
//! - `taken`: the bytes taken from a source, and its reads; `reading`, `next_line`: how the next line stands in them.
//! - `answer`, `line_step`: the answer to the next line.
//! - `standing`: what stands of the feed, by match; `row`: by selection.
//! - `find`, `limits`: the first of some bytes; sizes of buffers.
//!
//! A reader keeps all bytes that it took: `MOST_TAKEN` bytes of memory, asked for by the first step. A step costs time in the bytes of
//! its line and of the reads that it makes, one look-up of its match, and a second one at the first quote of a match.
#![tactic(auto)]

mod answer;
mod find;
mod limits;
mod line_step;
mod next_line;
mod reader;
mod reading;
mod row;
mod standing;
mod taken;

pub use feed_definitions::{Accepted, Change, Header, Step};
pub use reader::FeedReader;

#[cfg(test)]
mod tests;
