use crate::{TextBuf, put_handicap, put_number, put_odds, put_total};
use scan_types::{HandicapLine, Odds, TotalLine};
use std::test::Fail;

// Odds of so many thousandths, lines of so many quarters and a number, with a space between them.
fn spelled(thousandths: u32, handicap: i16, total: i16, number: i128) -> Option<TextBuf> {
    let mut text = TextBuf::new();
    put_odds(&mut text, Odds::new(thousandths)?);
    text.push_bytes(b" ");
    put_handicap(&mut text, HandicapLine::new(handicap)?);
    text.push_bytes(b" ");
    put_total(&mut text, TotalLine::new(total)?);
    text.push_bytes(b" ");
    put_number(&mut text, number);
    Some(text)
}

#[test]
fn values_are_spelled(rt: HostRuntime) -> Result<(), Fail> {
    let low = spelled(1_001, -20, 2, i128::MIN).ok_or("a value is out of range")?;
    assert_eq!(rt;
        low.bytes(),
        b"1.001 -5.00 0.50 -170141183460469231731687303715884105728".as_slice()
    );
    let middle = spelled(2_100, -1, 10, 0).ok_or("a value is out of range")?;
    assert_eq!(rt; middle.bytes(), b"2.100 -0.25 2.50 0".as_slice());
    let high = spelled(1_000_000, 0, 30, 1_009).ok_or("a value is out of range")?;
    assert_eq!(rt; high.bytes(), b"1000.000 0.00 7.50 1009".as_slice());
    Ok(())
}
