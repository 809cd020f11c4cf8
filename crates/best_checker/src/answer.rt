use cert_checker::Part;
use scan_types::Outcome;

/// What the checker says of stakes and a measure: yes, or the first test that they fail. Places count from 0.
///
/// What makes stakes the best that can be had is defined in `finding_definitions/specs/Best`.
#[derive(Clone, Copy, Debug, PartialEq)]
pub enum BestAnswer {
    /// The stakes are the best that can be had: no others win more for sure.
    Yes,
    /// The part is out of form at this place, that of its first part or entry that cannot stand there. The smaller count if the
    /// parts are not one for each offer, the number of offers if the divisor is 0 or above `MOST_PART`, the number of entries if
    /// none is a final score.
    NoShape(Part, u32),
    /// The part of this place is the first above its limit times the divisor, with this part.
    NoOffer(u32, i128),
    /// This outcome is the first stand-in of an abandonment at which the parts lose. They win this much there, below 0, in 1/2000
    /// of a minor unit times the divisor.
    NoAt(Outcome, i128),
    /// The sure gain of the stakes is not the bound of the measure: others may win more. Both are in minor units, fractions in
    /// lowest terms with a denominator above 0.
    NoTie {
        /// The least that the stakes win at a final score.
        gain: (i128, i128),
        /// The most that any stakes within the limits can win for sure by the measure.
        bound: (i128, i128),
    },
}
