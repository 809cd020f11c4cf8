use crate::bench::{Bench, judge};
use crate::law::FindingLaw;
use finding_definitions::Finding;
use quote_board::Judge;
use scan_types::{Sheet, WantOfMemory};
use std::alloc::Global;

impl Judge for Bench {
    type W = FindingLaw;

    ghost law_of = { λ bench. record { budget = bench } };

    /// The law of its budget.
    fn law(&self) -> &FindingLaw {
        self.finding_law()
    }

    /// The finding of the sheet with its budget.
    fn judge(&mut self, alloc: Global, sheet: &Sheet) -> Result<Finding, WantOfMemory> {
        judge(alloc, self, sheet)
    }
}
