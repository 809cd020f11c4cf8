//! Judging a sheet: its finding by exact programs, with a budget of pivots for each run.
//!
//! - `Bench`: a budget, and the tableau that each run uses again.
//! - `FindingLaw`: for a sheet just this finding may be filed. A bench is a `quote_board::Judge` under it.
//! - `judge`: the finding of a sheet, in six steps. Three runs at most; between two of them nothing is kept but the direction
//!   and a measure.
#![tactic(auto)]

mod bench;
mod coarse;
mod first_run;
mod judges;
mod judging;
mod law;
mod runs;
mod scaling;
mod turns;

pub use bench::{Bench, coarse_verdict, judge};
pub use law::FindingLaw;

#[cfg(test)]
mod tests;
