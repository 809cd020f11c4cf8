ghost use Rattle.std.specs.Prelude.{◌≡◌, IfOk};

use scan_types::WantOfMemory;
use std::alloc::Global;
use std::marker::Model;

/// Whole stakes in minor units of the currency, one for each offer of a sheet in its order.
#[derive(Debug, Drop)]
pub struct Stakes {
    items: Vec<u32>,
}

impl Model for Stakes {
    ghost use Rattle.std.specs.Prelude.{List, ℕ};

    ghost Value = { List ℕ };

    ghost view = { λ s. s.items.items };
}

impl Stakes {
    /// These stakes. Takes no memory.
    pub fn of(items: Vec<u32>) -> Stakes
        ensures { result ≡ items.items }
    {
        Stakes { items }
    }

    /// The stakes in the order of the offers.
    pub fn items(&self) -> &[u32]
        ensures { result.now ≡ self.now }
    {
        self.items.as_slice()
    }

    /// Equal stakes, with memory of their own.
    pub fn copy(&self, alloc: Global) -> Result<Stakes, WantOfMemory>
        ensures { IfOk result (λ copy. copy ≡ self.now) }
    {
        Ok(Stakes {
            items: Vec::from_slice(alloc, self.items.as_slice())?,
        })
    }
}
