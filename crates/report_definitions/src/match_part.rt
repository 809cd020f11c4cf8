ghost use Rattle.std.specs.Prelude.{◌≡◌};

use finding_definitions::Finding;
use scan_types::{Name, Sheet};
use std::marker::Model;

/// What a report says of a match that some feed quoted.
#[derive(Debug, Drop)]
pub struct MatchPart {
    /// The name of the match.
    pub match_name: Name,
    /// The offers that stand on the match.
    pub sheet: Sheet,
    /// What was found of the sheet.
    pub finding: Finding,
}

/// What a report says of its matches, in its order.
#[derive(Debug, Drop)]
pub struct MatchParts {
    items: Vec<MatchPart>,
}

impl Model for MatchParts {
    ghost use Rattle.std.specs.Prelude.{List};
    ghost use Rattle.report_definitions.specs.declared.match_part.MatchPart.{MatchPart};

    ghost Value = { List MatchPart };

    ghost view = { λ m. m.items.items };
}

impl MatchParts {
    /// These matches. Takes no memory.
    pub fn of(items: Vec<MatchPart>) -> MatchParts
        ensures { result ≡ items.items }
    {
        MatchParts { items }
    }

    /// The matches in their order.
    pub fn items(&self) -> &[MatchPart]
        ensures { result.now ≡ self.now }
    {
        self.items.as_slice()
    }
}
