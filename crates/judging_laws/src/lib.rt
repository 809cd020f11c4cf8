//! Laws of judging. There is no code here: each function has laws of the definitions as its contract.
//!
//! - `laws`: what the two linear programs of a sheet say of it at the best end of a run (Farkas' lemma with strict and weak
//!   rows, and its form with limits), and that the finding of a sheet is right.
//! - `budgets`: a finding that is out of pivots made fewer than there are bases.
#![tactic(auto)]

pub mod budgets;
pub mod laws;
