use crate::{HandicapLine, Name, Odds, Offer, Selection, Sheet, TotalLine, VoidRule};
use std::test::Fail;

#[test]
fn reads_names(rt: HostRuntime) -> Result<(), Fail> {
    let name = Name::read(b"Alpha_1.x-").ok_or("name")?;
    assert_eq!(rt; name.as_bytes(), b"Alpha_1.x-".as_slice());
    assert!(rt; Name::read(b"").is_none());
    assert!(rt; Name::read(b"two words").is_none());
    assert!(rt; Name::read(b"abcdefghijklmnopqrstuvwxyz012345").is_some());
    assert!(rt; Name::read(b"abcdefghijklmnopqrstuvwxyz0123456").is_none());
    let shorter = Name::read(b"m1").ok_or("m1")?;
    let longer = Name::read(b"m10").ok_or("m10")?;
    let later = Name::read(b"m2").ok_or("m2")?;
    assert!(rt; shorter < longer);
    assert!(rt; longer < later);
    Ok(())
}

// The numbers run from 0 to 142: 3 results, twice 41 handicaps, twice 29 totals.
#[test]
fn numbers_selections(rt: HostRuntime) -> Result<(), Fail> {
    let lowest = HandicapLine::new(-20).ok_or("-5.00")?;
    let highest = HandicapLine::new(20).ok_or("5.00")?;
    let least = TotalLine::new(2).ok_or("0.50")?;
    let most = TotalLine::new(30).ok_or("7.50")?;
    assert_eq!(rt; Selection::Away.number(), 2);
    assert_eq!(rt; Selection::HandicapHome(lowest).number(), 3);
    assert_eq!(rt; Selection::HandicapHome(highest).number(), 43);
    assert_eq!(rt; Selection::HandicapAway(lowest).number(), 44);
    assert_eq!(rt; Selection::HandicapAway(highest).number(), 84);
    assert_eq!(rt; Selection::Over(least).number(), 85);
    assert_eq!(rt; Selection::Over(most).number(), 113);
    assert_eq!(rt; Selection::Under(least).number(), 114);
    assert_eq!(rt; Selection::Under(most).number(), 142);
    assert!(rt; HandicapLine::new(-21).is_none());
    assert!(rt; TotalLine::new(1).is_none());
    Ok(())
}

#[test]
fn keeps_offers_in_order(rt: HostRuntime) -> Result<(), Fail> {
    let odds = Odds::new(2_100).ok_or("odds")?;
    assert!(rt; Odds::new(1_000).is_none());
    let home = Offer::new(0, Selection::Home, odds, 100, VoidRule::Void).ok_or("home")?;
    let away = Offer::new(0, Selection::Away, odds, 100, VoidRule::Void).ok_or("away")?;
    assert!(rt; Offer::new(8, Selection::Home, odds, 100, VoidRule::Void).is_none());
    assert!(rt; Offer::new(0, Selection::Home, odds, 0, VoidRule::Void).is_none());
    let mut sheet = Sheet::new(rt.alloc());
    for offer in [home, away] {
        if sheet.fits(&offer) {
            sheet.push(offer)?;
        }
    }
    assert_eq!(rt; sheet.offers(), [home, away].as_slice());
    assert!(rt; !sheet.fits(&away));
    sheet.clear();
    assert_eq!(rt; sheet.offers().len(), 0);
    Ok(())
}
