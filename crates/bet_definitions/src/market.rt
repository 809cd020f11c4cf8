use scan_types::{HandicapLine, TotalLine};

/// On what a bet is made.
#[derive(Clone, Copy, Debug, PartialEq, Eq)]
pub enum Market {
    /// `1x2`: the result of the match.
    OnResult,
    /// `ah`: the result after an Asian handicap.
    OnHandicap,
    /// `total`: the total goals.
    OnTotal,
}

/// Which lines the bets of a market have.
#[derive(Clone, Copy, Debug)]
pub enum LineKind {
    /// None.
    NoLine,
    /// A handicap line.
    Handicap,
    /// A total line.
    Total,
}

/// The line of a bet.
#[derive(Clone, Copy, Debug)]
pub enum BetLine {
    /// The market has no lines.
    NoLine,
    /// A handicap line, seen from the home side.
    Handicap(HandicapLine),
    /// A total line.
    Total(TotalLine),
}
