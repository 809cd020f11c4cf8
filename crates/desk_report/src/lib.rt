//! The matches of a report, from a board on which the feeds were put and every match was judged.
//!
//! - `marks`: where each match was last changed, and where a finding was filed for it after that: one pass over the history.
//! - `sheets`: the newest sheet of a match, copied part by part.
//! - `laws`: when a history has what is needed.
//! - `matches`: each match that was quoted, with its newest sheet and its finding.
#![tactic(auto)]

pub mod laws;
mod marks;
mod matches;
mod sheets;

pub use matches::make_matches;
