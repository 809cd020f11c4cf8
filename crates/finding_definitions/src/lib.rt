//! Findings of a sheet, and what makes each right. There is no code here but what makes the types and gives back what they hold.
//!
//! - `stakes`, `parts`, `measure`: whole stakes, fractional stakes and weights on outcomes, each over one `Vec`.
//! - `finding`: the six kinds of finding.
//!
//! The definitions stand in `specs`: `Arbitrage` (stakes that win at every outcome), `Measure` (price measures), `Verdicts` (what
//! makes each certificate right), `Findings` (what makes a finding right), `Best` (what makes stakes the best that can be had) and `Text`
//! (the one text of a finding).
#![tactic(auto)]

mod finding;
mod measure;
mod parts;
mod stakes;

pub use finding::{Finding, Stage, WideAt};
pub use measure::Measure;
pub use parts::Parts;
pub use stakes::Stakes;
