ghost use Rattle.std.specs.Prelude.{◌≡◌, [], ◌∷◌, ◌++◌, OnOk, OnErr};

use crate::cause::Refusal;
use scan_types::WantOfMemory;
use std::alloc::Global;
use std::marker::Model;

/// The refused lines of a feed, in the order of the feed.
#[derive(Debug, Drop)]
pub struct Refusals {
    items: Vec<Refusal>,
}

impl Model for Refusals {
    ghost use Rattle.std.specs.Prelude.{List};
    ghost use Rattle.feed_definitions.specs.declared.cause.Refusal.{Refusal};

    ghost Value = { List Refusal };

    ghost view = { λ r. r.items.items };
}

impl Refusals {
    /// No refused line. Takes no memory.
    pub fn new(alloc: Global) -> Refusals
        ensures { result ≡ [] }
    {
        Refusals {
            items: Vec::new(alloc),
        }
    }

    /// Appends a refused line. If no memory is left, the list is as before.
    pub fn push(&mut self, refusal: Refusal) -> Result<(), WantOfMemory>
        ensures ok { OnOk result (self.new ≡ self.old ++ refusal ∷ []) }
        ensures err { OnErr result (self.new ≡ self.old) }
    {
        self.items.push(refusal)?;
        Ok(())
    }

    /// The refused lines in their order.
    pub fn items(&self) -> &[Refusal]
        ensures { result.now ≡ self.now }
    {
        self.items.as_slice()
    }

    /// The same, as a `Vec` of their own. Takes no memory.
    pub fn into_items(self) -> Vec<Refusal>
        ensures { result.items ≡ self }
    {
        self.items
    }
}
