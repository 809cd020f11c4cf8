//! What the settlement rules of football books mean, as definitions that know no code, and their laws.
//!
//! - `specs/Legs`: the two legs of a bet, and how a leg goes at a final score.
//! - `specs/Decided`, `specs/Abandonment`: what is decided before the end, and the three rules on an
//!   abandoned match.
//! - `specs/Gain`, `specs/Scores`: gain, payment and net of a bet; the scores that settlement takes.
//! - `specs/StandIns`, `specs/Classes`: the 98 outcomes that stand for all, and the classes of a sheet.
//! - `specs/LegSigns`, `specs/LaterGoals`: lemmas, there because the test of what is decided is built from them.
//! - `specs/Laws`: the laws' statements.
//! - `laws`: what follows from the definitions, each as the contract of a function that does nothing.
//!
//! Scores range over all whole numbers here.
#![tactic(auto)]

pub mod laws;
mod leg_result;

pub use leg_result::LegResult;
