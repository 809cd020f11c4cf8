//! Findings as texts, both ways.
//!
//! - `writing`: `put_finding` writes the one text of a finding to a sink, gathered by `text_out`. O(text); takes no memory.
//! - `reading`: `read_finding` reads such a text from left to right, once. O(text); takes memory for the lists of the finding alone.
//! - `fault`: why a text is no finding's text.
//!
//! The types of findings and all definitions stand in `finding_definitions`; the types are given on here.
#![tactic(auto)]

mod fault;
mod lists;
mod reading;
mod stop;
mod words;
mod writing;

pub use fault::FindingFault;
pub use finding_definitions::{Finding, Measure, Parts, Stage, Stakes, WideAt};
pub use reading::read_finding;
pub use writing::{gather_finding, put_finding};

#[cfg(test)]
mod tests;
