//! What the words ask for.
ghost use Rattle.std.specs.Prelude.{◌≡◌, map, string_bytes};

use std::marker::Model;

/// The names of feeds, in the order of the words.
#[derive(Debug, Drop)]
pub struct FeedNames {
    names: Vec<String>,
}

impl Model for FeedNames {
    ghost use Rattle.std.specs.Prelude.{List, ℕ, map, string_bytes};

    ghost Value = { List (List ℕ) };

    ghost view = { λ f. map string_bytes f.names.items };
}

impl FeedNames {
    /// These names.
    pub fn new(names: Vec<String>) -> FeedNames
        ensures { result ≡ map string_bytes names.items }
    {
        FeedNames { names }
    }

    /// The names, lent.
    pub fn names(&self) -> &[String]
        ensures { map string_bytes result.now ≡ self.now }
    {
        self.names.as_slice()
    }

    /// The names, given back.
    pub fn into_names(self) -> Vec<String>
        ensures { map string_bytes result.items ≡ self }
    {
        self.names
    }
}

/// A command of the program, with what it is to work on.
#[derive(Debug, Drop)]
pub enum Command {
    /// Reads the feeds on one thread and writes the report.
    Once {
        /// Pivots that one run of a program may take, from 1 to `MOST_PIVOTS`.
        pivots: u32,
        /// 1 to `MOST_FEEDS` feeds.
        feeds: FeedNames,
    },
    /// Writes which commands there are.
    Help,
    /// Writes the version.
    Version,
}

/// Why words were not read.
#[derive(Clone, Copy, Debug, PartialEq, Eq)]
pub enum WordsFault {
    /// The words are no command.
    NoCommand,
    /// No memory is left.
    WantOfMemory,
}
