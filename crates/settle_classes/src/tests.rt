use crate::{classes, stand_for, stand_in};
use scan_types::{Odds, Offer, Outcome, Selection, Sheet, VoidRule};
use std::test::Fail;

#[test]
fn stands_by_lead_and_total(rt: HostRuntime) {
    assert_eq!(rt; stand_for(Outcome::Full(40, 3)), Outcome::Full(7, 1));
    assert_eq!(rt;
        stand_for(Outcome::Abandoned(40, 37)),
        Outcome::Abandoned(6, 3)
    );
    assert_eq!(rt; stand_for(Outcome::Full(2, 5)), Outcome::Full(2, 5));
    assert_eq!(rt; stand_for(Outcome::Full(0, u64::MAX)), Outcome::Full(1, 7));
}

#[test]
fn numbers_the_stand_ins(rt: HostRuntime) {
    assert_eq!(rt; stand_in(0), Outcome::Full(0, 0));
    assert_eq!(rt; stand_in(35), Outcome::Full(7, 0));
    assert_eq!(rt; stand_in(36), Outcome::Full(1, 7));
    assert_eq!(rt; stand_in(48), Outcome::Full(7, 1));
    assert_eq!(rt; stand_in(49), Outcome::Abandoned(0, 0));
    assert_eq!(rt; stand_in(97), Outcome::Abandoned(7, 1));
}

// A home bet of a `void` book wins, loses or is given back.
#[test]
fn classes_of_one_home_bet(rt: HostRuntime) -> Result<(), Fail> {
    let odds = Odds::new(2_100).ok_or("odds")?;
    let home = Offer::new(0, Selection::Home, odds, 100, VoidRule::Void).ok_or("home")?;
    let mut sheet = Sheet::new(rt.alloc());
    if sheet.fits(&home) {
        sheet.push(home)?;
    }
    let list = classes(rt.alloc(), &sheet)?;
    let expected = [
        Outcome::Full(0, 0),
        Outcome::Full(1, 0),
        Outcome::Abandoned(0, 0),
    ];
    assert_eq!(rt; list.outcomes(), expected.as_slice());
    Ok(())
}
