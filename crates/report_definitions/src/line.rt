use board_definitions::FeedStop;
use feed_definitions::{Header, Refusal};
use finding_definitions::Finding;
use scan_types::{Name, Odds, Selection};

/// What the line of a feed says.
#[derive(Clone, Copy, Debug, PartialEq, Eq)]
pub struct FeedLine {
    /// The number of the feed, from 0.
    pub number: u8,
    /// The first line of the feed.
    pub header: Header,
    /// How many lines were answered, the header included.
    pub lines: u32,
    /// How many of them were refused: so many lines of refusals follow.
    pub refused: u32,
    /// How its reading ended.
    pub stop: FeedStop,
}

/// What the line of an offer says. The rule of the offer is that of its feed, and does not stand in the line.
#[derive(Clone, Copy, Debug, PartialEq, Eq)]
pub struct OfferLine {
    /// The number of the feed, from 0.
    pub feed: u8,
    /// What a bet backs.
    pub selection: Selection,
    /// The odds of a bet.
    pub odds: Odds,
    /// The largest stake, in minor units of the currency.
    pub limit: u32,
}

/// One line of a report.
#[derive(Debug, Drop)]
pub enum Line {
    /// `arbscan report 1`, the first line.
    Title,
    /// `pivots`: the pivots that one run of a program might take.
    Pivots(u32),
    /// `feed`: what the report says of a feed.
    Feed(FeedLine),
    /// `refused`: the number of a feed, and one of its refused lines.
    Refused(u8, Refusal),
    /// `match`: the name of a match, and how many lines of offers follow.
    Match(Name, u32),
    /// `offer`: one of the offers on the match before it.
    Offer(OfferLine),
    /// `finding`: what was found of these offers.
    Found(Finding),
    /// `end`, the last line.
    End,
}
