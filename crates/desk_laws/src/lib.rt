//! What follows from what a run of the desk is. Each function does nothing: its clause is the law.
//!
//! - `statuses`: each status has its cause, and each cause its status; a run over good feeds does its work.
//! - `history`: what the history of a run has, once the bodies of the feeds were read.
//!
//! `specs/Histories` has what a whole history has.
#![tactic(auto)]

mod history;
mod statuses;

pub use history::bodies_are_in_the_history;
pub use statuses::statuses_have_causes;
