//! The report of any feeds: what a report sees of them, which matches it has, the sheet of each and its finding, and the text. A run of
//! threads, the history of a board and its versions do not occur here.
//!
//! - `feed_part`, `match_part`, `report`: what a report says of a feed and of a match, and the whole of it.
//! - `line`: one line of a report.
//! - `laws`: what holds of the definitions themselves.
//!
//! The definitions stand in `specs`: `Stops` (how a feed of a report may end), `Seen` (the feeds, and what stands on a match), `Words`
//! (how a report spells what it names), `Report` (the matches, their findings, and the text), `Lines` (the text as lines), `Order` (which
//! line may come behind which), `Wrong` (where bytes are no report's text) and `Laws` (the laws' statements).
#![tactic(auto)]

mod feed_part;
mod laws;
mod line;
mod match_part;
mod report;

pub use feed_definitions::Refusals;
pub use feed_part::{FeedPart, FeedParts};
pub use laws::a_report_is_its_lines;
pub use line::{FeedLine, Line, OfferLine};
pub use match_part::{MatchPart, MatchParts};
pub use report::Report;
