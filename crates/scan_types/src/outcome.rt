/// How a match ends.
#[derive(Clone, Copy, Debug, PartialEq, Eq, PartialOrd, Ord, Hash)]
pub enum Outcome {
    /// Completed, with the goals of the home and of the away side.
    Full(u64, u64),
    /// Abandoned, with the goals of the home and of the away side until then.
    Abandoned(u64, u64),
}
