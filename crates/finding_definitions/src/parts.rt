ghost use Rattle.std.specs.Prelude.{◌≡◌, IfOk};

use scan_types::WantOfMemory;
use std::alloc::Global;
use std::marker::Model;

/// Fractional stakes, one for each offer of a sheet in its order: each part over the divisor, in minor
/// units of the currency.
#[derive(Debug, Drop)]
pub struct Parts {
    divisor: u64,
    items: Vec<u64>,
}

impl Model for Parts {
    ghost use Rattle.finding_definitions.specs.Fractions.{Fractions};

    ghost Value = { Fractions };

    ghost view = { λ p. record { divisor = p.divisor; parts = p.items.items } };
}

impl Parts {
    /// These parts over this divisor. Takes no memory.
    pub fn of(divisor: u64, parts: Vec<u64>) -> Parts
        ensures divisor { result.divisor ≡ divisor }
        ensures parts { result.parts ≡ parts.items }
    {
        Parts {
            divisor,
            items: parts,
        }
    }

    /// The divisor of all parts.
    pub fn divisor(&self) -> u64
        ensures { result ≡ self.now.divisor }
    {
        self.divisor
    }

    /// The parts in the order of the offers.
    pub fn items(&self) -> &[u64]
        ensures { result.now ≡ self.now.parts }
    {
        self.items.as_slice()
    }

    /// Equal parts over the same divisor, with memory of their own.
    pub fn copy(&self, alloc: Global) -> Result<Parts, WantOfMemory>
        ensures { IfOk result (λ copy. copy ≡ self.now) }
    {
        Ok(Parts {
            divisor: self.divisor,
            items: Vec::from_slice(alloc, self.items.as_slice())?,
        })
    }
}
