use crate::{gain, paid, slack};
use scan_types::{HandicapLine, Odds, Offer, Outcome, Selection, TotalLine, VoidRule};
use std::test::Fail;

fn offer(selection: Selection, odds: u32, rule: VoidRule) -> Result<Offer, Fail> {
    let odds = Odds::new(odds).ok_or("odds")?;
    Ok(Offer::new(0, selection, odds, 100, rule).ok_or("offer")?)
}

fn home(quarters: i16, odds: u32) -> Result<Offer, Fail> {
    let line = HandicapLine::new(quarters).ok_or("line")?;
    offer(Selection::HandicapHome(line), odds, VoidRule::Void)
}

fn away(quarters: i16, odds: u32) -> Result<Offer, Fail> {
    let line = HandicapLine::new(quarters).ok_or("line")?;
    offer(Selection::HandicapAway(line), odds, VoidRule::Void)
}

fn over(quarters: i16, rule: VoidRule) -> Result<Offer, Fail> {
    let line = TotalLine::new(quarters).ok_or("line")?;
    offer(Selection::Over(line), 1900, rule)
}

fn under(quarters: i16, rule: VoidRule) -> Result<Offer, Fail> {
    let line = TotalLine::new(quarters).ok_or("line")?;
    offer(Selection::Under(line), 1900, rule)
}

// A quarter line loses half the stake where one leg pushes and the other loses.
#[test]
fn settles_quarter_handicaps(rt: HostRuntime) -> Result<(), Fail> {
    let level = home(-1, 1900)?;
    assert_eq!(rt; gain(&level, Outcome::Full(0, 0)), -1000);
    assert_eq!(rt; paid(&level, 101, Outcome::Full(0, 0)), 50);
    assert_eq!(rt; slack(&level, Outcome::Full(0, 0)), 1000);
    assert_eq!(rt; slack(&level, Outcome::Full(1, 0)), 1900);
    assert_eq!(rt; gain(&home(-19, 2000)?, Outcome::Full(40, 3)), 2000);
    assert_eq!(rt; gain(&home(-19, 2000)?, Outcome::Full(7, 1)), 2000);
    assert_eq!(rt; gain(&away(-19, 2000)?, Outcome::Full(40, 3)), -2000);
    Ok(())
}

#[test]
fn settles_totals(rt: HostRuntime) -> Result<(), Fail> {
    assert_eq!(rt; gain(&over(11, VoidRule::Void)?, Outcome::Full(2, 1)), 900);
    assert_eq!(rt;
        gain(&over(29, VoidRule::Void)?, Outcome::Full(4, 3)),
        -1000
    );
    assert_eq!(rt; gain(&over(30, VoidRule::Void)?, Outcome::Full(4, 4)), 1800);
    assert_eq!(rt;
        gain(&over(30, VoidRule::Void)?, Outcome::Full(9, 30)),
        1800
    );
    Ok(())
}

// Over and under 2.75 at odds 1.900 where the match is abandoned.
#[test]
fn settles_abandoned_matches(rt: HostRuntime) -> Result<(), Fail> {
    let decided = over(11, VoidRule::Decided)?;
    assert_eq!(rt; gain(&decided, Outcome::Abandoned(2, 1)), 900);
    assert_eq!(rt; gain(&decided, Outcome::Abandoned(1, 1)), 0);
    assert_eq!(rt; gain(&decided, Outcome::Abandoned(4, 0)), 1800);
    let decided = under(11, VoidRule::Decided)?;
    assert_eq!(rt; gain(&decided, Outcome::Abandoned(1, 1)), 0);
    assert_eq!(rt; gain(&decided, Outcome::Abandoned(2, 1)), -1000);
    assert_eq!(rt;
        gain(&under(11, VoidRule::Score)?, Outcome::Abandoned(1, 1)),
        1800
    );
    assert_eq!(rt;
        gain(&under(11, VoidRule::Void)?, Outcome::Abandoned(1, 1)),
        0
    );
    Ok(())
}
