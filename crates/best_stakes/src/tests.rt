use crate::{BestOut, best};
use fraction_tableau::Tableau;
use scan_types::{Odds, Offer, Outcome, Selection, Sheet, VoidRule};
use std::alloc::Global;

/// Best stakes on three offers by three weights.
#[derive(Clone, Copy, Debug, PartialEq)]
struct Found {
    divisor: u64,
    parts: [u64; 3],
    weights: [(Outcome, u64); 3],
}

const DRAW: Outcome = Outcome::Full(0, 0);

const AWAY: Outcome = Outcome::Full(0, 1);

const HOME: Outcome = Outcome::Full(1, 0);

fn offer(feed: u8, selection: Selection, odds: u32, limit: u32) -> Option<Offer> {
    Offer::new(feed, selection, Odds::new(odds)?, limit, VoidRule::Void)
}

fn sheet_of(alloc: Global, offers: &[Option<Offer>]) -> Option<Sheet> {
    let mut sheet = Sheet::new(alloc);
    for offer in offers {
        let offer = (*offer)?;
        if !sheet.fits(&offer) {
            return None;
        }
        sheet.push(offer).ok()?;
    }
    Some(sheet)
}

// What is found, if it has three parts and three weights.
fn three_of(out: &BestOut) -> Option<Found> {
    let BestOut::Best { parts, measure } = out else {
        return None;
    };
    let (items, entries) = (parts.items(), measure.items());
    if items.len() != 3 || entries.len() != 3 {
        return None;
    }
    Some(Found {
        divisor: parts.divisor(),
        parts: [items[0], items[1], items[2]],
        weights: [entries[0], entries[1], entries[2]],
    })
}

fn best_of(alloc: Global, offers: &[Option<Offer>]) -> Option<Found> {
    let sheet = sheet_of(alloc, offers)?;
    let mut tableau = Tableau::empty(alloc);
    let out = best(alloc, &mut tableau, 4_096, &sheet).ok()?;
    three_of(&out)
}

// Home and away of one book and the draw of another, and one book that gains on no result. Worked out by hand from odds and limits.
#[test]
fn best_stakes(rt: HostRuntime) {
    let a = rt.alloc();
    let two = [
        offer(0, Selection::Home, 2_100, 100_000),
        offer(0, Selection::Away, 4_500, 100_000),
        offer(1, Selection::Draw, 4_000, 100_000),
    ];
    let one = [
        offer(0, Selection::Home, 3_000, 1_000),
        offer(0, Selection::Draw, 3_000, 1_000),
        offer(0, Selection::Away, 3_000, 1_000),
    ];
    assert_eq!(rt;
        [best_of(a, &two), best_of(a, &one)],
        [
            Some(Found {
                divisor: 3,
                parts: [300_000, 140_000, 157_500],
                weights: [(DRAW, 9), (AWAY, 8), (HOME, 19)],
            }),
            Some(Found {
                divisor: 1,
                parts: [0, 0, 0],
                weights: [(DRAW, 1), (AWAY, 1), (HOME, 1)],
            }),
        ]
    );
}
