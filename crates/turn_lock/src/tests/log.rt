//! A list of pairs of caller and number.
ghost use Rattle.std.specs.Prelude.{◌≡◌, ◌++◌, ◌∷◌, [], OnOk, OnErr};

use crate::Kept;
use std::alloc::Global;
use want_of_memory::WantOfMemory;

#[derive(Drop)]
pub struct Log {
    pub pairs: Vec<(u8, u64)>,
}

impl Kept for Log {
    type Entry = (u8, u64);

    type Fixed = ();

    ghost entries = { λ s. s.pairs.items };

    ghost fixed = { λ _. tt };

    ghost caller = { λ e. e.0 };

    fn count(&self) -> u64 {
        self.pairs.len() as u64
    }
}

impl Log {
    pub fn new(alloc: Global) -> Log
        ensures { result.pairs.items ≡ [] }
    {
        Log {
            pairs: Vec::new(alloc),
        }
    }

    pub fn add(&mut self, caller: u8, number: u64) -> Result<(), WantOfMemory>
        ensures ok { OnOk result (self.new.pairs.items ≡ self.old.pairs.items ++ (caller, number) ∷ []) }
        ensures err { OnErr result (self.new.pairs.items ≡ self.old.pairs.items) }
    {
        self.pairs.push((caller, number))?;
        Ok(())
    }

    pub fn is(&self, wanted: &[(u8, u64)]) -> bool {
        self.pairs.as_slice() == wanted
    }

    /// The numbers of one caller, in their order.
    pub fn numbers_of(&self, alloc: Global, caller: u8) -> Result<Vec<u64>, WantOfMemory> {
        let mut numbers = Vec::new(alloc);
        for pair in self.pairs.as_slice() {
            if pair.0 == caller {
                numbers.push(pair.1)?;
            }
        }
        Ok(numbers)
    }
}
