ghost use Rattle.std.specs.Prelude.{◌≡◌, IfOk};

use crate::measure::Measure;
use crate::parts::Parts;
use crate::stakes::Stakes;
use scan_types::WantOfMemory;
use std::alloc::Global;

/// One of the three runs of a judgement.
#[derive(Clone, Copy, Debug, PartialEq, Eq, PartialOrd, Ord, Hash)]
pub enum Stage {
    /// Without the limits: decides whether any stakes gain. Printed as 1.
    First,
    /// Within the limits, for one unit and what rounding may cost. Printed as 2.
    Slack,
    /// Within the limits, for one unit. Printed as 3.
    Plain,
}

/// Where a run met a number that does not fit.
#[derive(Clone, Copy, Debug, PartialEq, Eq, PartialOrd, Ord, Hash)]
pub enum WideAt {
    /// At an entry of the tableau, which would leave 128 bits.
    Entry {
        /// The row of the entry.
        row: u32,
        /// The column of the entry.
        column: u32,
    },
    /// At a weight of the measure, by its place.
    Weight(u32),
    /// At a stake, by the place of its offer.
    Stake(u32),
}

/// What is found of a sheet. The first three are verdicts: they decide whether the offers admit arbitrage.
#[derive(Debug, Drop)]
pub enum Finding {
    /// Whole stakes that win at every final score and lose nothing at an abandonment.
    Arb(Stakes),
    /// Weights on outcomes under which no offer gains on average, so that no stakes win at every final score.
    Coherent(Measure),
    /// Stakes in proportion to the parts gain, and weights that no stakes within the limits can outweigh
    /// by a whole unit.
    Thin(Parts, Measure),
    /// Fractional stakes win a whole unit, but rounded down they do not; no stakes within the limits win a
    /// unit and what rounding may cost. Open.
    Narrow(Parts, Measure),
    /// A number left its range. Open.
    Wide {
        /// The run in which it was.
        stage: Stage,
        /// The pivots of that run until then.
        pivots: u32,
        /// Where it was.
        at: WideAt,
    },
    /// A run used up its budget of pivots. Open.
    OutOfPivots {
        /// The run in which it was.
        stage: Stage,
        /// The pivots of that run.
        pivots: u32,
    },
}

impl Finding {
    /// An equal finding, with memory of its own.
    pub fn copy(&self, alloc: Global) -> Result<Finding, WantOfMemory>
        ensures { IfOk result (λ copy. copy ≡ self.now) }
    {
        match self {
            Finding::Arb(stakes) => Ok(Finding::Arb(stakes.copy(alloc)?)),
            Finding::Coherent(measure) => Ok(Finding::Coherent(measure.copy(alloc)?)),
            Finding::Thin(parts, measure) => {
                let parts = parts.copy(alloc)?;
                Ok(Finding::Thin(parts, measure.copy(alloc)?))
            }
            Finding::Narrow(parts, measure) => {
                let parts = parts.copy(alloc)?;
                Ok(Finding::Narrow(parts, measure.copy(alloc)?))
            }
            Finding::Wide { stage, pivots, at } => Ok(Finding::Wide {
                stage: *stage,
                pivots: *pivots,
                at: *at,
            }),
            Finding::OutOfPivots { stage, pivots } => Ok(Finding::OutOfPivots {
                stage: *stage,
                pivots: *pivots,
            }),
        }
    }
}
