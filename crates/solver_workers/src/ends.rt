use turn_lock::{Kept, Pass};

/// Why a worker stopped.
#[derive(Clone, Copy, Debug, PartialEq, Eq)]
pub enum SolverStop {
    /// No match is due, and every feed has ended.
    Finished,
    /// No memory is left.
    NoMemory,
}

/// How a worker ended.
#[derive(Drop)]
pub struct SolverEnd<B: Kept> {
    /// The worker's pass.
    pub pass: Pass<B>,
    /// Why it stopped.
    pub stop: SolverStop,
}
