ghost use Rattle.std.specs.Prelude.{◌≡◌, IfOk};

use board_definitions::Law;
use finding_definitions::Finding;
use scan_types::{Sheet, WantOfMemory};
use std::alloc::Global;

/// What judges a sheet, and finds only what its law allows.
pub trait Judge {
    /// The law under which findings are filed.
    type W: Law;

    /// The law of a judge, which stays.
    ghost law_of: { Self → Self.W };

    /// The law.
    fn law(&self) -> &Self::W
        ensures { result.now ≡ law_of self.now };

    /// What is found of the sheet. The law stays. Fails only if no memory is left.
    fn judge(&mut self, alloc: Global, sheet: &Sheet) -> Result<Finding, WantOfMemory>
        ensures allowed { IfOk result (λ finding. Self.W.allows (law_of self.old) sheet.now finding) }
        ensures law { law_of self.new ≡ law_of self.old };
}
