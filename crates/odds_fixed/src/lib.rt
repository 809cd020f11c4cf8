//! Odds, stake limits and lines as texts write them, in both directions.
//!
//! - `odds`, `limit`, `quarters`: reading a text; `faults`: why it is refused.
//! - `number`, `parts`: decimal digits, and the parts round a point.
//! - `spellings`: the one text of each value, appended to a `TextBuf` (`text_buf`).
//! - `laws`: that this text is the one spelling of its value, as contracts of empty functions.
//!
//! Each call costs time in the bytes of its text, and takes no memory.
#![tactic(auto)]

mod faults;
mod laws;
mod limit;
mod number;
mod odds;
mod parts;
mod quarters;
mod spellings;
mod text_buf;

pub use faults::{LimitFault, OddsFault};
pub use laws::{
    handicaps_have_one_spelling, numbers_have_one_spelling, odds_have_one_spelling,
    totals_have_one_spelling,
};
pub use limit::read_limit;
pub use odds::read_odds;
pub use quarters::read_quarters;
pub use spellings::{NUMBER_BYTES, put_handicap, put_number, put_odds, put_total};
pub use text_buf::{TEXT_BYTES, TextBuf};

#[cfg(test)]
mod tests;
