//! Numbers as texts write them: odds, stake limits and lines in quarters of a goal.
//!
//! The definitions stand in `specs`: `Readings` (which texts have the form, and what they write), `Values` (the values of each range),
//! `Spellings` (the one text of each value) and `Printed` (the form that such a text has).
#![tactic(auto)]
