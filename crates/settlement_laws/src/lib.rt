//! Why 98 outcomes stand for all, and the classes of a sheet for the sheet: laws about settlement, which know no code.
//!
//! Total lines end at 7.50, so all totals from 8 goals on settle alike; handicap lines end at 5.00, so
//! all leads from 6 goals on settle alike, and those up to -6 too. Outcomes that settle alike give equal
//! sums of nets, gains and slacks, whatever the stakes. So a bound that holds at the stand-ins, or at the
//! classes, holds at every outcome.
//!
//! A bet gains one of five amounts, which one does not depend on its odds, and higher odds make none less. Every bet can lose its whole stake, and slack covers what rounding a stake down costs.
#![tactic(auto)]

pub mod laws;
