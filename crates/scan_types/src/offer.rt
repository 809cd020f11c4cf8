ghost use Rattle.std.specs.Prelude.{◌≡◌, ◌<◌, ◌≤◌, IfSome, IsSome, IsTrue, ◌↔◌};
ghost use Rattle.scan_types.specs.declared.limits.TheConstants.{MOST_FEEDS, MOST_LIMIT};

use crate::limits::{MOST_FEEDS, MOST_LIMIT};
use crate::odds::Odds;
use crate::rule::VoidRule;
use crate::selection::Selection;

/// One book's offer on one match: up to `limit` minor units may be staked at `odds`.
#[derive(Clone, Copy, Debug, PartialEq, Eq, Hash)]
pub struct Offer {
    /// The number of the feed, from 0 and below `MOST_FEEDS`.
    pub feed: u8,
    /// What a bet backs.
    pub selection: Selection,
    /// The odds of a bet.
    pub odds: Odds,
    /// The largest stake, 1 to `MOST_LIMIT` minor units.
    pub limit: u32,
    /// How bets are settled if the match is abandoned.
    pub rule: VoidRule,
    ghost feed_at_most: { feed < MOST_FEEDS },
    ghost limit_at_least: { 1 ≤ limit },
    ghost limit_at_most: { limit ≤ MOST_LIMIT },
}

impl Offer {
    ghost use Rattle.scan_types.specs.Ranges.{IsFeedNumber, IsLimitRange};
    ghost use Rattle.scan_types.specs.Offers.{HasTerms, IsBelow};

    /// The offer with these terms, or `None` if the feed is not below `MOST_FEEDS` or the limit is outside 1 to
    /// `MOST_LIMIT`.
    pub fn new(
        feed: u8,
        selection: Selection,
        odds: Odds,
        limit: u32,
        rule: VoidRule,
    ) -> Option<Offer>
        ensures value { IfSome result (λ offer. HasTerms offer feed selection odds limit rule) }
        ensures in_range { IsSome result ↔ (IsFeedNumber feed × IsLimitRange limit) }
    {
        if usize::from(feed) < MOST_FEEDS && 1 <= limit && limit <= MOST_LIMIT {
            Some(Offer {
                feed,
                selection,
                odds,
                limit,
                rule,
            })
        } else {
            None
        }
    }

    /// Whether this offer comes before the other on a sheet: by feed, and within a feed by selection.
    pub fn is_below(&self, other: &Offer) -> bool
        ensures { IsTrue result ↔ IsBelow self.now other.now }
    {
        self.feed < other.feed
            || (self.feed == other.feed && self.selection.number() < other.selection.number())
    }
}
