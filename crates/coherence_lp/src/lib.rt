//! The two linear programs of a sheet, what they are made of, and what is read from their tableaus at the best end of a run.
//!
//! - `leading`: the offers that no other offer of the sheet dominates. O(offers^2 * classes) at most, but the comparison of two
//!   offers ends at the first class where the one gains less. Takes memory for a number a pair of offer and class.
//! - `homogeneous`: the program without limits, over the leading offers. `limited`: the program with limits, over all.
//!   O(classes * offers + offers^2). Each takes memory for a number a place of the program.
//! - `has_level_one`: whether the level is 1. Takes no memory.
//! - `read_measure`: the classes' weights. `read_direction`: whole stakes in proportion, without limits. `read_parts` and
//!   `read_floors`: fractional stakes within the limits, and the same rounded down. Each takes memory for what it gives, and
//!   a few numbers an offer.
#![tactic(auto)]

mod asked;
mod coarse;
mod columns;
mod common_stakes;
mod direction;
mod factors;
mod fault;
mod floors;
mod gains;
mod items;
mod level;
mod measure;
mod offer_list;
mod parts;
mod programs;
mod ratio;
mod ratios;
mod rows;

pub use asked::Needs;
pub use coarse::{Coarse, coarse_down, coarse_up};
pub use direction::read_direction;
pub use fault::ReadingFault;
pub use floors::read_floors;
pub use level::has_level_one;
pub use measure::read_measure;
pub use offer_list::{OfferList, leading};
pub use parts::read_parts;
pub use programs::{homogeneous, limited, runs_may_begin};

#[cfg(test)]
mod tests;
