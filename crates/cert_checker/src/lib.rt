//! Whether a verdict is right for a sheet, over all outcomes: the checker that an auditor trusts.
//!
//! It knows settlement and findings alone, and nothing of how a verdict was found. It must never stand on
//! a crate of pivoting, programs or judging.
//!
//! - `checking`: `check`, with the tests in their order. `answer`: what it answers.
//! - `laws`: a finding has one answer.
//! - `shape`, `limits`, `outcomes`, `means`: the tests, and the sums that the checker of best stakes needs too.
//!
//! O(98 * offers) for stakes, O(offers * entries + entries^2) for a measure. Takes no memory.
#![tactic(auto)]

mod answer;
mod checking;
pub mod laws;
pub mod limits;
pub mod means;
pub mod outcomes;
pub mod shape;
mod terms;

pub use answer::{Answer, Checked, Part};
pub use checking::check;

#[cfg(test)]
mod tests;
