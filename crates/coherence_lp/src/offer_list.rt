ghost use Rattle.std.specs.Prelude.{◌≡◌, ◌==◌, ◌<◌, length, map, position, IfOk, IfSome};
ghost use Rattle.settlement_definitions.specs.Classes.{classes_of};
ghost use Rattle.judging_definitions.specs.Columns.{leading_offers};
ghost use Rattle.judging_definitions.specs.CoarseOdds.{item_at};

use crate::gains::{gain_table, is_dominated};
use scan_types::{Sheet, WantOfMemory};
use settle_classes::ClassList;
use std::alloc::Global;
use std::marker::Model;

/// Numbers of offers of a sheet, from 0 on, rising.
#[derive(Debug, Drop)]
pub struct OfferList {
    numbers: Vec<u32>,
}

impl Model for OfferList {
    ghost use Rattle.std.specs.Prelude.{List, ℕ};

    ghost Value = { List ℕ };

    ghost view = { λ l. l.numbers.items };
}

impl OfferList {
    ghost use Rattle.std.specs.Prelude.{◌≤◌};
    ghost use Rattle.scan_types.specs.declared.limits.TheConstants.{MOST_OFFERS};
    ghost use Rattle.judging_definitions.specs.CoarseOdds.{with_zeros};

    /// The list of these numbers.
    pub fn of(numbers: Vec<u32>) -> OfferList
        ensures { result ≡ numbers.items }
    {
        OfferList { numbers }
    }

    /// The numbers.
    pub fn numbers(&self) -> &[u32]
        ensures { result.now ≡ self.now }
    {
        self.numbers.as_slice()
    }

    /// One item for each of the first offers of a sheet, so many: for an offer of the list the item at its place there, and 0
    /// for an offer that is left out of it. O(count * list); takes memory for the items.
    pub fn with_zeros(
        &self,
        alloc: Global,
        items: &[u64],
        count: usize,
    ) -> Result<Vec<u64>, WantOfMemory>
        requires each { length items.now ≡ length self.now }
        requires few { count ≤ MOST_OFFERS }
        ensures { IfOk result (λ all. all.items ≡ with_zeros self.now items.now count) }
    {
        let mut all = Vec::with_capacity(alloc, count)?;
        for i in 0..count {
            all.push(item_for(self.numbers.as_slice(), items, i as u32))?;
        }
        Ok(all)
    }
}

// The item at the place of a number, or 0 for a number that has none.
fn item_for(numbers: &[u32], items: &[u64], number: u32) -> u64
    requires { length items.now ≡ length numbers.now }
    ensures { result ≡ item_at items.now (position (λ other. other == number) numbers.now) }
{
    match place_of(numbers, number) {
        Some(place) => items[place],
        None => 0,
    }
}

/// The place of a number in a list.
pub fn place_of(numbers: &[u32], number: u32) -> Option<usize>
    ensures value { result ≡ position (λ other. other == number) numbers.now }
    ensures within { IfSome result (λ place. place < length numbers.now) }
{
    numbers.iter().position(|other| *other == number)
}

/// The offers that lead: those that no offer of the sheet dominates. `classes` are those of the sheet. Computes each gain
/// once, and compares each pair of offers up to the first class where the one gains less: O(offers^2 * classes) at most.
pub fn leading(alloc: Global, sheet: &Sheet, classes: &ClassList) -> Result<OfferList, WantOfMemory>
    requires { classes.now ≡ classes_of sheet.now }
    ensures { IfOk result (λ list. list ≡ map (λ offer. offer.0) (leading_offers sheet.now classes.now)) }
{
    let offers = sheet.offers();
    let outcomes = classes.outcomes();
    let table = gain_table(alloc, offers, outcomes)?;
    let mut numbers = Vec::new(alloc);
    for i in 0..offers.len() {
        if !is_dominated(&table, outcomes.len(), offers.len(), i) {
            numbers.push(i as u32)?;
        }
    }
    Ok(OfferList { numbers })
}
