use desk_definitions::FeedEnd;
use turn_lock::{Kept, Pass};

/// A feed that was read onto a board, and its pass.
#[derive(Drop)]
pub struct FeedRun<B: Kept, S: Drop> {
    /// How the feed ended.
    pub end: FeedEnd<S>,
    /// The feed's pass.
    pub pass: Pass<B>,
}
