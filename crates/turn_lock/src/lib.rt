//! A lock that serves its callers in the order of their tickets. Its state stands for a list of what they did.
//!
//! - `kept`: what a state under the lock stands for, a list of entries and a part that never changes.
//! - `pass`: what a caller knows of the lock. Each caller's thread has a pass of its own.
//! - `lock`: the lock. It makes, splits and joins passes, and it is closed at the end.
//! - `turn`: the time during which one caller has the state.
//! - `steps`: the steps of a turn, on three words and one slot.
//! - `rule`, `plays`: what is true of the lock at every moment, and what each step tells its caller.
//!
//! Nothing is proved about waiting: no fairness, no progress, and no bound on how long `enter` takes.
#![tactic(auto)]

mod kept;
mod lock;
mod pass;
mod plays;
mod rule;
mod steps;
#[cfg(test)]
mod tests;
mod turn;

pub use kept::Kept;
pub use lock::TurnLock;
pub use pass::Pass;
pub use rule::MOST_PASSES;
pub use turn::Turn;
