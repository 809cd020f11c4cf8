//! Writing the report of any feeds: `write_report` gathers its lines by `text_out` and hands them on in large pieces. It takes no memory.
//!
//! - `writing`: the report, its feeds and its matches. `lines`: each line of them. `words`: the words that stand in a line.
//!
//! The types and the text itself stand in `report_definitions`; the types are given on here.
#![tactic(auto)]

mod lines;
mod words;
mod writing;

pub use feed_definitions::Refusals;
pub use report_definitions::{FeedPart, FeedParts, MatchPart, MatchParts, Report};
pub use writing::write_report;

#[cfg(test)]
mod tests;
