//! Laws of the report of any feeds: feeds with a budget have one report, what it says of its matches is right, and a board that holds the
//! lines of the feeds has the sheets of the report. There is no code here: each function of `laws` has laws of the definitions as its
//! contract.
#![tactic(auto)]

pub mod laws;
