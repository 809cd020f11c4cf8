ghost use Rattle.std.specs.Prelude.{◌≡◌, [], ◌∷◌, ◌++◌, IsTrue, ◌↔◌, OnOk, OnErr};
ghost use Rattle.scan_types.specs.Sheets.{IsSheet, Fits};

use crate::limits::MOST_OFFERS;
use crate::offer::Offer;
use std::alloc::Global;
use std::marker::Model;
use want_of_memory::WantOfMemory;

/// The offers on one match: at most `MOST_OFFERS`, strictly rising by feed and selection number.
#[derive(Debug, Drop)]
pub struct Sheet {
    offers: Vec<Offer>,
}

impl Model for Sheet {
    ghost use Rattle.std.specs.Prelude.{List};
    ghost use Rattle.scan_types.specs.declared.offer.Offer.{Offer};
    ghost use Rattle.scan_types.specs.Sheets.{IsSheet};

    ghost Value = { List Offer };

    ghost view = { λ s. s.offers.items };

    ghost invariant = { λ s. IsSheet s.offers.items };
}

impl Sheet {
    /// A sheet without offers. Takes no memory.
    pub fn new(alloc: Global) -> Sheet
        ensures { result ≡ [] }
    {
        Sheet {
            offers: Vec::new(alloc),
        }
    }

    /// Whether the offer can be pushed: there are fewer than `MOST_OFFERS`, and it comes after the last.
    pub fn fits(&self, offer: &Offer) -> bool
        ensures { IsTrue result ↔ Fits self.now offer.now }
    {
        if self.offers.len() >= MOST_OFFERS {
            return false;
        }
        match self.offers.last() {
            None => true,
            Some(last) => last.is_below(offer),
        }
    }

    /// Appends an offer that fits. If no memory is left, the sheet is as before.
    pub fn push(&mut self, offer: Offer) -> Result<(), WantOfMemory>
        requires { Fits self.old offer }
        ensures ok { OnOk result (self.new ≡ self.old ++ offer ∷ []) }
        ensures err { OnErr result (self.new ≡ self.old) }
    {
        self.offers.push(offer)?;
        Ok(())
    }

    /// The offers in their order.
    pub fn offers(&self) -> &[Offer]
        ensures value { result.now ≡ self.now }
        ensures rising { IsSheet self.now }
    {
        self.offers.as_slice()
    }

    /// Takes all offers away, and keeps the memory.
    pub fn clear(&mut self)
        ensures { self.new ≡ [] }
    {
        self.offers.clear();
    }
}
