ghost use Rattle.finding_definitions.specs.Findings.{IsRightVerdict};

use finding_definitions::Finding;
use scan_types::{Outcome, Sheet};

/// The two lists of a certificate.
#[derive(Clone, Copy, Debug, PartialEq, Eq, PartialOrd, Ord, Hash)]
pub enum Part {
    /// The stakes or the parts, one for each offer.
    Stakes,
    /// The outcomes with their weights.
    Measure,
}

/// A sheet and a verdict that is right for it.
#[derive(Drop)]
pub struct Checked<'a> {
    /// The offers.
    pub sheet: &'a Sheet,
    /// The verdict.
    pub finding: &'a Finding,
    ghost right: { ∥ IsRightVerdict sheet.now finding.now ∥₁ },
}

/// What the checker says of a finding: yes, or the first test that it fails. Places count from 0.
///
/// What makes a verdict right is defined in `finding_definitions/specs/Verdicts`.
#[derive(Drop)]
pub enum Answer<'a> {
    /// The verdict is right.
    Yes(Checked<'a>),
    /// The finding is no verdict: it leaves open whether the offers admit arbitrage.
    NotAVerdict,
    /// The part is out of form at this place, that of its first stake, part or entry that cannot stand there. The
    /// smaller count if stakes or parts are not one for each offer, the number of offers if the divisor is 0 or above
    /// `MOST_PART`, the number of entries if none is a final score.
    NoShape(Part, u32),
    /// The offer of this place is the first to fail, with this number: a stake in minor units above its limit, a part
    /// above its limit times the divisor, or a mean gain above 0, in 1/2000 of the stake times the weights.
    NoOffer(u32, i128),
    /// This outcome is the first stand-in at which the stakes win too little: less than 1 at a final score or than 0 at
    /// an abandonment. They win this much: stakes in minor units, parts in 1/2000 of a minor unit times the divisor.
    NoAt(Outcome, i128),
    /// Stakes within the limits may win on average as much as one minor unit needs. Both numbers are in 1/2000 of a
    /// minor unit times the weights.
    NoBound {
        /// The most that they can win.
        reach: i128,
        /// 2000 times the weight of the final scores.
        need: i128,
    },
}
