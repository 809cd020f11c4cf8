use crate::{BestAnswer, check_best};
use finding_definitions::{Measure, Parts};
use scan_types::{Odds, Offer, Outcome, Selection, Sheet, VoidRule};
use std::alloc::Global;

const DRAW: Outcome = Outcome::Full(0, 0);

const AWAY: Outcome = Outcome::Full(0, 1);

const HOME: Outcome = Outcome::Full(1, 0);

fn offer(feed: u8, selection: Selection, odds: u32, limit: u32) -> Option<Offer> {
    Offer::new(feed, selection, Odds::new(odds)?, limit, VoidRule::Void)
}

// What is said of the parts over the divisor and the measure, if such a sheet can be made and memory is left.
fn asked(
    alloc: Global,
    offers: &[Option<Offer>],
    divisor: u64,
    parts: &[u64],
    entries: &[(Outcome, u64)],
) -> Option<BestAnswer> {
    let mut sheet = Sheet::new(alloc);
    for offer in offers {
        let offer = (*offer)?;
        if !sheet.fits(&offer) {
            return None;
        }
        sheet.push(offer).ok()?;
    }
    let parts = Parts::of(divisor, parts.to_vec(alloc).ok()?);
    let measure = Measure::of(entries.to_vec(alloc).ok()?);
    Some(check_best(&sheet, &parts, &measure))
}

// Home and away of one book and the draw of another, and one book that gains on no result. Worked out by hand from odds and limits.
#[test]
fn best_stakes(rt: HostRuntime) {
    let a = rt.alloc();
    let two = [
        offer(0, Selection::Home, 2_100, 100_000),
        offer(0, Selection::Away, 4_500, 100_000),
        offer(1, Selection::Draw, 4_000, 100_000),
    ];
    let one = [
        offer(0, Selection::Home, 3_000, 1_000),
        offer(0, Selection::Draw, 3_000, 1_000),
        offer(0, Selection::Away, 3_000, 1_000),
    ];
    let weights = [(DRAW, 9), (AWAY, 8), (HOME, 19)];
    assert_eq!(rt;
        [
            asked(a, &two, 3, &[300_000, 140_000, 157_500], &weights),
            asked(a, &one, 1, &[0, 0, 0], &[(DRAW, 1), (AWAY, 1), (HOME, 1)]),
            asked(a, &two, 1, &[0, 0, 0], &weights),
        ],
        [
            Some(BestAnswer::Yes),
            Some(BestAnswer::Yes),
            Some(BestAnswer::NoTie {
                gain: (0, 1),
                bound: (32_500, 3)
            }),
        ]
    );
}
