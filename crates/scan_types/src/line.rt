ghost use Rattle.std.specs.Prelude.{◌≡◌, ◌≤◌, ◌≤ℤ◌, pos, negsuc, IfSome, IsSome, ◌↔◌};

/// An Asian handicap line in quarters of a goal, from -5.00 to 5.00, always seen from the home side.
#[derive(Clone, Copy, Debug, PartialEq, Eq, PartialOrd, Ord, Hash)]
pub struct HandicapLine {
    /// Quarters of a goal, -20 to 20, added to the goals of the home side.
    pub quarters: i8,
    ghost at_least: { negsuc 19 ≤ℤ quarters },
    ghost at_most: { quarters ≤ℤ pos 20 },
}

impl HandicapLine {
    ghost use Rattle.scan_types.specs.Ranges.{IsHandicapRange};

    /// The line of so many quarters, or `None` outside -20 to 20.
    pub fn new(q: i16) -> Option<HandicapLine>
        ensures value { IfSome result (λ line. line.quarters ≡ q) }
        ensures in_range { IsSome result ↔ IsHandicapRange q }
    {
        if -20 <= q && q <= 20 {
            Some(HandicapLine { quarters: q as i8 })
        } else {
            None
        }
    }
}

/// An Asian total line in quarters of a goal, from 0.50 to 7.50.
#[derive(Clone, Copy, Debug, PartialEq, Eq, PartialOrd, Ord, Hash)]
pub struct TotalLine {
    /// Quarters of a goal, 2 to 30.
    pub quarters: u8,
    ghost at_least: { 2 ≤ quarters },
    ghost at_most: { quarters ≤ 30 },
}

impl TotalLine {
    ghost use Rattle.scan_types.specs.Ranges.{IsTotalRange};

    /// The line of so many quarters, or `None` outside 2 to 30.
    pub fn new(q: i16) -> Option<TotalLine>
        ensures value { IfSome result (λ line. pos line.quarters ≡ q) }
        ensures in_range { IsSome result ↔ IsTotalRange q }
    {
        if 2 <= q && q <= 30 {
            Some(TotalLine { quarters: q as u8 })
        } else {
            None
        }
    }
}
