use board_definitions::Law;

/// The law of findings: for a sheet the one finding may be filed that it has with a budget of pivots for each run.
#[derive(Clone, Copy, Debug, PartialEq, Eq)]
pub struct FindingLaw {
    /// The budget of each run, 1 to `MOST_PIVOTS`.
    pub budget: u32,
}

impl Law for FindingLaw {
    ghost use Rattle.judging_definitions.specs.ExactFinding.{IsFindingOf};

    ghost allows = { λ law offers finding. IsFindingOf offers law.budget finding };
}
