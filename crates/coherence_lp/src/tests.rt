use crate::{Needs, homogeneous, leading, limited};
use fraction_tableau::Program;
use scan_types::{HandicapLine, Odds, Offer, Selection, Sheet, TotalLine, VoidRule};
use settle_classes::classes;
use std::alloc::Global;
use std::test::Fail;

// A home bet at 2.100 of a `void` book, up to 100 minor units. It gains 2200, loses 2000 or is given back, so its divisor
// is 200, and what rounding may cost is 2100 where it wins.
fn one_home_bet(alloc: Global) -> Result<Sheet, Fail> {
    let odds = Odds::new(2_100).ok_or("odds")?;
    let home = Offer::new(0, Selection::Home, odds, 100, VoidRule::Void).ok_or("home")?;
    let mut sheet = Sheet::new(alloc);
    if sheet.fits(&home) {
        sheet.push(home)?;
    }
    Ok(sheet)
}

fn is(program: &Program, columns: u32, rows: u32, coefs: &[i128], right: &[i128]) -> bool {
    program.columns() == columns
        && program.rows() == rows
        && program.coefs() == coefs
        && program.right() == right
}

#[test]
fn writes_the_programs_of_one_home_bet(rt: HostRuntime) -> Result<(), Fail> {
    let sheet = one_home_bet(rt.alloc())?;
    let list = classes(rt.alloc(), &sheet)?;
    let leaders = leading(rt.alloc(), &sheet, &list)?;
    let first = homogeneous(rt.alloc(), &sheet, &list, &leaders)?;
    assert!(rt; is(&first, 2, 4, &[1, 10, 1, -11, 0, 0, 1, 0], &[0, 0, 0, 1]));
    let plain = limited(rt.alloc(), &sheet, &list, Needs::Plain)?;
    assert!(rt;
        is(
            &plain,
            2,
            5,
            &[2000, 10, 2000, -11, 0, 0, 0, 1, 1, 0],
            &[0, 0, 0, 20000, 1]
        )
    );
    let slack = limited(rt.alloc(), &sheet, &list, Needs::Slack)?;
    assert!(rt;
        is(
            &slack,
            2,
            5,
            &[2000, 10, 6200, -11, 0, 0, 0, 1, 1, 0],
            &[0, 0, 0, 20000, 1]
        )
    );
    Ok(())
}

// Bets on the three results, home and away with -0.25, and over and under 2.5 goals.
fn push_book(
    sheet: &mut Sheet,
    feed: u8,
    rule: VoidRule,
    thousandths: &[u32; 7],
) -> Result<(), Fail> {
    let line = HandicapLine::new(-1).ok_or("handicap")?;
    let goals = TotalLine::new(10).ok_or("total")?;
    let selections = [
        Selection::Home,
        Selection::Draw,
        Selection::Away,
        Selection::HandicapHome(line),
        Selection::HandicapAway(line),
        Selection::Over(goals),
        Selection::Under(goals),
    ];
    for k in 0..7 {
        let odds = Odds::new(thousandths[k]).ok_or("odds")?;
        let offer = Offer::new(feed, selections[k], odds, 50_000, rule).ok_or("offer")?;
        if sheet.fits(&offer) {
            sheet.push(offer)?;
        }
    }
    Ok(())
}

// A bet of one book leads if no other book has greater odds on it, and another rule on abandonments keeps it leading too.
#[test]
fn finds_the_leading_offers_of_three_books(rt: HostRuntime) -> Result<(), Fail> {
    let mut sheet = Sheet::new(rt.alloc());
    push_book(
        &mut sheet,
        0,
        VoidRule::Void,
        &[2_200, 3_500, 3_300, 1_900, 1_950, 2_200, 1_700],
    )?;
    push_book(
        &mut sheet,
        1,
        VoidRule::Decided,
        &[2_150, 3_600, 3_250, 1_950, 1_900, 2_150, 1_750],
    )?;
    push_book(
        &mut sheet,
        2,
        VoidRule::Void,
        &[2_250, 3_400, 3_400, 1_900, 2_000, 2_300, 1_650],
    )?;
    let list = classes(rt.alloc(), &sheet)?;
    let leaders = leading(rt.alloc(), &sheet, &list)?;
    assert!(rt; leaders.numbers() == [6, 8, 10, 12, 13, 14, 16, 18, 19].as_slice());
    Ok(())
}
