use finding_definitions::{Measure, Parts, WideAt};

/// What comes of the run for the best stakes of a sheet.
#[derive(Debug, Drop)]
pub enum BestOut {
    /// The best stakes, and the measure that shows that no others win more for sure.
    Best {
        /// The stakes, fractions with one divisor.
        parts: Parts,
        /// Weights on outcomes whose bound is the sure gain of the stakes.
        measure: Measure,
    },
    /// A number left its range. Open.
    Wide {
        /// The pivots until then.
        pivots: u32,
        /// Where it was.
        at: WideAt,
    },
    /// The run used up its budget of so many pivots. Open.
    OutOfPivots(u32),
}
