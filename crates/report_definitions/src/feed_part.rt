ghost use Rattle.std.specs.Prelude.{◌≡◌, IsTrue};
ghost use Rattle.report_definitions.specs.Stops.{is_reported};

use board_definitions::FeedStop;
use feed_definitions::{Header, Refusals};
use std::marker::Model;

/// What a report says of a feed.
#[derive(Debug, Drop)]
pub struct FeedPart {
    /// The first line of the feed.
    pub header: Header,
    /// How many lines were answered, the header included.
    pub lines: u32,
    /// The refused lines, in the order of the feed.
    pub refusals: Refusals,
    /// How its reading ended: `End`, `Cut` or `ReadFault`.
    pub stop: FeedStop,
    ghost stop_is: { IsTrue (is_reported stop) },
}

/// What a report says of its feeds, by their numbers.
#[derive(Debug, Drop)]
pub struct FeedParts {
    items: Vec<FeedPart>,
}

impl Model for FeedParts {
    ghost use Rattle.std.specs.Prelude.{List};
    ghost use Rattle.report_definitions.specs.declared.feed_part.FeedPart.{FeedPart};

    ghost Value = { List FeedPart };

    ghost view = { λ f. f.items.items };
}

impl FeedParts {
    /// These feeds. Takes no memory.
    pub fn of(items: Vec<FeedPart>) -> FeedParts
        ensures { result ≡ items.items }
    {
        FeedParts { items }
    }

    /// The feeds by their numbers.
    pub fn items(&self) -> &[FeedPart]
        ensures { result.now ≡ self.now }
    {
        self.items.as_slice()
    }

    /// The same, as a `Vec` of their own. Takes no memory.
    pub fn into_items(self) -> Vec<FeedPart>
        ensures { result.items ≡ self }
    {
        self.items
    }
}
