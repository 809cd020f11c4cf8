ghost use Rattle.std.specs.Prelude.{◌≡◌, true, IfOk};
ghost use Rattle.judging_definitions.specs.CoarseOdds.{at_odds, raised_odds, raised_offers, lowered_odds, stay_odds, kept_numbers, lowered_offers};

use crate::offer_list::OfferList;
use judging_definitions::COARSE_STEP;
use scan_types::{LEAST_ODDS, Odds, Offer, Sheet, WantOfMemory};
use std::alloc::Global;

/// What is left of a sheet with odds rounded down.
#[derive(Debug, Drop)]
pub struct Coarse {
    /// The offers whose odds are still above 1.000, at those odds.
    pub sheet: Sheet,
    /// Their numbers on the sheet from which they come.
    pub from: OfferList,
}

/// The sheet with its odds rounded up to multiples of `COARSE_STEP`. The same bets gain no less there, so a measure that lets
/// no offer gain on average there lets none gain here. Takes memory for the offers.
pub fn coarse_up(alloc: Global, sheet: &Sheet) -> Result<Sheet, WantOfMemory>
    ensures { IfOk result (λ raised. raised ≡ raised_offers sheet.now) }
{
    let offers = sheet.offers();
    let mut raised = Sheet::new(alloc);
    for i in 0..offers.len() {
        raised.push(raised_offer(offers[i]))?;
    }
    Ok(raised)
}

/// The offers of the sheet whose odds, rounded down to multiples of `COARSE_STEP`, are still above 1.000, with their numbers.
/// The same bets gain no more there, so stakes that gain there gain here, with 0 on the offers that are left out. Takes
/// memory for the offers and their numbers.
pub fn coarse_down(alloc: Global, sheet: &Sheet) -> Result<Coarse, WantOfMemory>
    ensures sheet { IfOk result (λ coarse. coarse.sheet ≡ lowered_offers sheet.now) }
    ensures from { IfOk result (λ coarse. coarse.from ≡ kept_numbers sheet.now) }
{
    let offers = sheet.offers();
    let mut lowered = Sheet::new(alloc);
    let mut numbers = Vec::new(alloc);
    for i in 0..offers.len() {
        let offer = offers[i];
        if stays(offer.odds) {
            lowered.push(lowered_offer(offer))?;
            numbers.push(i as u32)?;
        }
    }
    Ok(Coarse {
        sheet: lowered,
        from: OfferList::of(numbers),
    })
}

// The offer at its odds rounded up.
fn raised_offer(offer: Offer) -> Offer
    ensures { result ≡ at_odds offer (raised_odds offer.odds) }
{
    let thousandths = (offer.odds.thousandths + (COARSE_STEP - 1)) / COARSE_STEP * COARSE_STEP;
    Offer {
        feed: offer.feed,
        selection: offer.selection,
        odds: Odds { thousandths },
        limit: offer.limit,
        rule: offer.rule,
    }
}

// Whether odds rounded down are still odds.
fn stays(odds: Odds) -> bool
    ensures { result ≡ stay_odds odds }
{
    LEAST_ODDS <= odds.thousandths / COARSE_STEP * COARSE_STEP
}

// The offer at its odds rounded down.
fn lowered_offer(offer: Offer) -> Offer
    requires { stay_odds offer.odds ≡ true }
    ensures { result ≡ at_odds offer (lowered_odds offer.odds) }
{
    let thousandths = offer.odds.thousandths / COARSE_STEP * COARSE_STEP;
    Offer {
        feed: offer.feed,
        selection: offer.selection,
        odds: Odds { thousandths },
        limit: offer.limit,
        rule: offer.rule,
    }
}
