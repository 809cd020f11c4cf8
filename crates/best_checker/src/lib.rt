//! Whether stakes are the best that can be had on a sheet, over all outcomes: the checker that an auditor trusts in place of the solver.
//!
//! It knows settlement and certificates alone, and nothing of how the stakes were found. It must never stand on a crate of pivoting,
//! programs or judging.
//!
//! - `checking`: `check_best`, with the tests in their order. `answer`: what it answers.
//! - `laws`: stakes with a measure have one answer.
//! - `gains`: what the parts win at the stand-ins. `amounts`: their sure gain, and the bound of the measure. `fractions`: lowest terms.
//!
//! O(98 * offers + offers * entries + entries^2). Takes no memory.
#![tactic(auto)]

mod amounts;
mod answer;
mod checking;
mod fractions;
mod gains;
pub mod laws;

pub use answer::BestAnswer;
pub use checking::check_best;

#[cfg(test)]
mod tests;
