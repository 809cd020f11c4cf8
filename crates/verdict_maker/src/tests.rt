use crate::{Bench, judge};
use finding_definitions::{Finding, Stage};
use scan_types::{Odds, Offer, Outcome, Selection, Sheet, VoidRule};
use std::alloc::Global;
use std::test::Fail;

// Bets of a `void` book at the same odds, up to 100 minor units each.
fn book(alloc: Global, selections: &[Selection], thousandths: u32) -> Result<Sheet, Fail> {
    let odds = Odds::new(thousandths).ok_or("odds")?;
    let mut sheet = Sheet::new(alloc);
    for selection in selections {
        let offer = Offer::new(0, *selection, odds, 100, VoidRule::Void).ok_or("offer")?;
        if sheet.fits(&offer) {
            sheet.push(offer)?;
        }
    }
    Ok(sheet)
}

fn has_stakes(finding: &Finding, stakes: &[u32]) -> bool {
    match finding {
        Finding::Arb(found) => found.items() == stakes,
        _ => false,
    }
}

fn is_one_draw(entries: &[(Outcome, u64)]) -> bool {
    if entries.len() != 1 {
        return false;
    }
    let (outcome, weight) = entries[0];
    outcome == Outcome::Full(0, 0) && weight == 1
}

fn is_coherent_at_a_draw(finding: &Finding) -> bool {
    match finding {
        Finding::Coherent(measure) => is_one_draw(measure.items()),
        _ => false,
    }
}

#[test]
fn judges_one_book(rt: HostRuntime) -> Result<(), Fail> {
    let mut bench = Bench::new(rt.alloc(), 100);
    // A home bet alone loses at a draw.
    let home = book(rt.alloc(), &[Selection::Home], 2_100)?;
    assert!(rt; is_coherent_at_a_draw(&judge(rt.alloc(), &mut bench, &home)?));
    // 100 on each result returns 400.
    let results = [Selection::Home, Selection::Draw, Selection::Away];
    let generous = book(rt.alloc(), &results, 4_000)?;
    assert!(rt; has_stakes(&judge(rt.alloc(), &mut bench, &generous)?, &[100, 100, 100]));
    // The level enters in the first pivot, and a stake could enter in the next.
    let mut short = Bench::new(rt.alloc(), 1);
    let open = judge(rt.alloc(), &mut short, &generous)?;
    assert!(rt;
        matches!(
            open,
            Finding::OutOfPivots {
                stage: Stage::First,
                pivots: 1
            }
        )
    );
    Ok(())
}
