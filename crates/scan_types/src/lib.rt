//! The words that every layer shares: names, odds, lines, selections, offers, sheets and outcomes.
//!
//! - `name`: a book's or a match's name.
//! - `odds`, `line`: decimal odds in thousandths, handicap and total lines in quarters of a goal.
//! - `selection`: what is backed, and the order of selections.
//! - `rule`, `outcome`: how a book settles an abandoned match, and how a match ends.
//! - `offer`, `sheet`: one book's offer, and all offers on one match in their order.
//! - `place`: a place in a text.
//! - `limits`: the largest sizes, each with its reason.
//! - `laws`: a selection is known by its number, and selections are ordered by it.
#![tactic(auto)]

pub mod laws;
pub mod limits;
mod line;
mod name;
mod odds;
mod offer;
mod outcome;
mod place;
mod rule;
mod selection;
mod sheet;

pub use limits::{
    DEFAULT_PIVOTS, DEFAULT_SOLVERS, LEAST_ODDS, MOST_FEED_BYTES, MOST_FEEDS, MOST_LIMIT,
    MOST_LINE_BYTES, MOST_LINES, MOST_MATCHES, MOST_MEASURE_ENTRIES, MOST_NAME_BYTES, MOST_ODDS,
    MOST_OFFERS, MOST_PART, MOST_PIVOTS, MOST_REPORT_BYTES, MOST_REPORT_LINE_BYTES, MOST_SCORE,
    MOST_SELECTIONS, MOST_SOLVERS, MOST_STANDING,
};
pub use line::{HandicapLine, TotalLine};
pub use name::Name;
pub use odds::Odds;
pub use offer::Offer;
pub use outcome::Outcome;
pub use place::Place;
pub use rule::VoidRule;
pub use selection::Selection;
pub use sheet::Sheet;
pub use want_of_memory::WantOfMemory;

#[cfg(test)]
mod tests;
