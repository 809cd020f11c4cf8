ghost use Rattle.std.specs.Prelude.{◌≡◌, ◌*◌, ◌/◌, ◌<◌, ◌≤◌, length, map, zip, IfOk};
ghost use Rattle.std.specs.List.{AllZip, Contains};
ghost use Rattle.judging_definitions.specs.Stakes.{AreScaledFloors};
ghost use Rattle.verdict_maker.specs.Turns.{HasSome};

use finding_definitions::Stakes;
use scan_types::{Offer, WantOfMemory};
use std::alloc::Global;

/// The offer that binds stakes in a proportion: its limit, and its item of the proportion.
#[derive(Clone, Copy, Debug)]
struct Bound {
    /// The limit of the offer, in minor units.
    limit: u32,
    /// The item, above 0.
    item: u64,
}

/// The offer whose limit is the fewest times its item, of those whose item is above 0; of equal ones the first.
fn binding(offers: &[Offer], items: &[u64]) -> Bound
    requires each { length items.now ≡ length offers.now }
    requires some { HasSome items.now }
    ensures above_zero { 1 ≤ result.item }
    ensures stands { Contains (zip (map (λ offer. offer.limit) offers.now) items.now) (result.limit, result.item) }
    ensures binds { AllZip (λ offer other. 1 ≤ other → result.limit * other ≤ offer.limit * result.item) offers.now items.now }
{
    // 1 to 0 is above each proportion.
    let mut limit = 1;
    let mut item = 0;
    for k in 0..offers.len() {
        let other = offers[k].limit;
        let part = items[k];
        if u128::from(other) * u128::from(item) < u128::from(limit) * u128::from(part) {
            limit = other;
            item = part;
        }
    }
    Bound { limit, item }
}

/// Stakes in the proportion of the items, as large as the limits let them be, rounded down. Takes memory for a stake an offer.
pub fn scaled_floors(alloc: Global, offers: &[Offer], items: &[u64]) -> Result<Stakes, WantOfMemory>
    requires each { length items.now ≡ length offers.now }
    requires some { HasSome items.now }
    ensures { IfOk result (λ stakes. AreScaledFloors offers.now items.now stakes) }
{
    let least = binding(offers, items);
    let mut stakes = Vec::with_capacity(alloc, items.len())?;
    for k in 0..items.len() {
        let stake = u128::from(least.limit) * u128::from(items[k]) / u128::from(least.item);
        stakes.push(stake as u32)?;
    }
    Ok(Stakes::of(stakes))
}
