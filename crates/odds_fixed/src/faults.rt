use thiserror::Error;

/// Why a text is refused as odds. The form is tested first.
#[derive(Clone, Copy, Debug, PartialEq, Eq, Error)]
pub enum OddsFault {
    /// The text is not 1 to 4 digits and then nothing or a point and 1 to 3 digits.
    #[error("not the form of odds")]
    BadOdds,
    /// In thousandths, the odds are below `LEAST_ODDS` or above `MOST_ODDS`.
    #[error("odds out of range")]
    OddsRange,
}

/// Why a text is refused as a stake limit. The form is tested first.
#[derive(Clone, Copy, Debug, PartialEq, Eq, Error)]
pub enum LimitFault {
    /// The text is not 1 to 9 digits.
    #[error("not the form of a stake limit")]
    BadLimit,
    /// The limit is 0 or above `MOST_LIMIT` minor units.
    #[error("stake limit out of range")]
    LimitRange,
}
