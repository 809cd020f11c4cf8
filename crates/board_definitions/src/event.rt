use crate::key::Key;
use finding_definitions::Finding;
use scan_types::{Name, Odds};

/// How the reading of a feed ended.
#[derive(Clone, Copy, Debug, PartialEq, Eq)]
pub enum FeedStop {
    /// The feed was read to its end.
    End,
    /// The feed has more lines or bytes than are read.
    Cut,
    /// A read failed.
    ReadFault,
    /// No memory was left.
    NoMemory,
    /// The first line is no header.
    BadHeader,
}

/// What an entry of the history does.
#[derive(Debug, Drop)]
pub enum Event {
    /// A feed offers these odds, up to a stake limit of 1 to 100,000,000 minor units.
    Quoted {
        /// What the quote is for.
        key: Key,
        /// The odds of a bet.
        odds: Odds,
        /// The largest stake, in minor units of the currency.
        limit: u32,
        /// The line of the feed, from 2.
        line: u32,
    },
    /// A feed withdraws a quote.
    Withdrawn {
        /// What the quote was for.
        key: Key,
        /// The line of the feed, from 2.
        line: u32,
    },
    /// A feed has ended.
    Ended {
        /// The number of the feed, from 0.
        feed: u8,
        /// How its reading ended.
        stop: FeedStop,
    },
    /// The sheet of a match is pinned. The number of entries before this one is the pin's version, and names the pin.
    Pinned {
        /// The name of the match.
        match_name: Name,
    },
    /// A finding is filed for the sheet of a pin, which ends the pin.
    Filed {
        /// The pin's version.
        version: u64,
        /// What was found of the sheet at that version.
        finding: Finding,
    },
    /// A pin ends without a finding.
    Released {
        /// The pin's version.
        version: u64,
    },
}

/// One entry of the history.
#[derive(Debug, Drop)]
pub struct Entry {
    /// The number of the caller that added it: `feed + 1` for a feed.
    pub caller: u8,
    /// What it does.
    pub event: Event,
}
