/// A fraction that is not negative.
#[derive(Clone, Copy, Debug)]
pub struct Ratio {
    /// Its numerator.
    pub numerator: u128,
    /// Its denominator, above 0.
    pub denominator: u128,
}

/// What is to be a stake: a value by a number above 0.
#[derive(Clone, Copy, Debug)]
pub struct Share {
    /// The value.
    pub value: Ratio,
    /// The number.
    pub divisor: u128,
}

/// One more stake in lowest terms, and the common denominator up to it.
#[derive(Clone, Copy, Debug)]
pub struct StepStake {
    /// The stake.
    pub ratio: Ratio,
    /// The common denominator.
    pub denominator: u128,
}

/// Fractional stakes in lowest terms, one for each offer of a sheet, and their least common denominator.
#[derive(Debug, Drop)]
pub struct CommonStakes {
    /// The stakes.
    pub ratios: Vec<Ratio>,
    /// The common denominator.
    pub denominator: u128,
}
