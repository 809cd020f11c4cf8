//! The largest sizes of what is made.

/// Matches that a feed is made over, at most: their numbers have three digits.
pub const MOST_MADE_MATCHES: u32 = 256;

/// Selections of a match that are quoted.
pub const CHOICES: u32 = 7;

/// One flag for each selection of each match.
pub const FLAGS: usize = 1_792;
