ghost use Rattle.std.specs.Prelude.{◌≡◌, IfOk};

use scan_types::{Outcome, WantOfMemory};
use std::alloc::Global;
use std::marker::Model;

/// Weights on outcomes of a match.
#[derive(Debug, Drop)]
pub struct Measure {
    items: Vec<(Outcome, u64)>,
}

impl Model for Measure {
    ghost use Rattle.std.specs.Prelude.{List, ℕ};
    ghost use Rattle.scan_types.specs.declared.outcome.Outcome.{Outcome};

    ghost Value = { List (Outcome × ℕ) };

    ghost view = { λ m. m.items.items };
}

impl Measure {
    /// These weights. Takes no memory.
    pub fn of(items: Vec<(Outcome, u64)>) -> Measure
        ensures { result ≡ items.items }
    {
        Measure { items }
    }

    /// The outcomes with their weights, in the order in which they were given.
    pub fn items(&self) -> &[(Outcome, u64)]
        ensures { result.now ≡ self.now }
    {
        self.items.as_slice()
    }

    /// Equal weights, with memory of their own.
    pub fn copy(&self, alloc: Global) -> Result<Measure, WantOfMemory>
        ensures { IfOk result (λ copy. copy ≡ self.now) }
    {
        Ok(Measure {
            items: Vec::from_slice(alloc, self.items.as_slice())?,
        })
    }
}
