//! The 98 outcomes that stand for all, and the classes of a sheet.
//!
//! Total lines end at 7.50, so all totals from 8 goals on settle alike; handicap lines end at 5.00, so
//! all leads from 6 goals on settle alike, and those up to -6 too. So 49 scores stand for all whole
//! scores, and each of them as a final score and at abandonment.
//!
//! - `stand_in`: the stand-ins by number. `stand_for`: the one that stands for an outcome.
//! - `classes`: the stand-ins of a sheet that settle unlike all before them.
//!
//! `settlement_laws` shows that what holds at each of them holds at every outcome.
#![tactic(auto)]

mod bets;
mod class_list;
mod row;
mod stand_ins;

pub use class_list::{ClassList, classes};
pub use stand_ins::{STAND_INS, stand_for, stand_in};

#[cfg(test)]
mod tests;
