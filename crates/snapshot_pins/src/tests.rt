//! The worked rows of reads at versions.

ghost use Rattle.std.specs.Prelude.{◌≡◌, IfSome};

use crate::{CellKey, Cells};
use scan_types::{Name, Odds, Offer, Selection, TotalLine, VoidRule, WantOfMemory};
use std::alloc::Global;
use std::test::Fail;

/// An offer at these odds, in thousandths.
fn offer_of(key: &CellKey, thousandths: u32) -> Option<Offer>
    ensures feed { IfSome result (λ offer. offer.feed ≡ key.now.feed) }
    ensures selection { IfSome result (λ offer. offer.selection ≡ key.now.selection) }
{
    Offer::new(
        key.feed,
        key.selection,
        Odds::new(thousandths)?,
        100,
        VoidRule::Void,
    )
}

/// Adds an offer, if it may be added, and says whether it was.
fn put(
    cells: &mut Cells,
    key: CellKey,
    thousandths: u32,
    version: u64,
) -> Result<bool, WantOfMemory> {
    let Some(offer) = offer_of(&key, thousandths) else {
        return Ok(false);
    };
    if version < cells.newest() {
        return Ok(false);
    }
    cells.put(key, offer, version)?;
    Ok(true)
}

/// Adds a removal, if it may be added, and says whether it was.
fn remove(cells: &mut Cells, key: &CellKey, version: u64) -> Result<bool, WantOfMemory> {
    if version < cells.newest() {
        return Ok(false);
    }
    cells.remove(key, version)?;
    Ok(true)
}

/// A place that nothing was copied to.
fn blank() -> Offer {
    Offer {
        feed: 7,
        selection: Selection::Home,
        odds: Odds { thousandths: 1001 },
        limit: 1,
        rule: VoidRule::Void,
    }
}

/// How many offers are read from a place on, and the odds of the eighth, in thousandths.
fn read(cells: &Cells, match_name: &Name, version: u64, from: usize) -> (usize, u32) {
    let mut out = [blank(); 32];
    let count = cells.read_at(match_name, version, from, &mut out);
    (count, out[7].odds.thousandths)
}

/// The odds of the one offer that a match has at a version, in thousandths, and 0 if it has none.
fn odds_at(cells: &Cells, match_name: &Name, version: u64) -> u32 {
    let mut out = [blank(); 1];
    if cells.read_at(match_name, version, 0, &mut out) == 0 {
        return 0;
    }
    out[0].odds.thousandths
}

// One key: two offers and a removal, read at each version, and again once version 1 alone is live.
fn one_key(alloc: Global, match_name: Name) -> Result<[u32; 7], WantOfMemory> {
    let mut cells = Cells::new(alloc);
    let key = CellKey {
        match_name,
        feed: 0,
        selection: Selection::Home,
    };
    put(&mut cells, key, 2_000, 1)?;
    put(&mut cells, key, 2_200, 3)?;
    remove(&mut cells, &key, 5)?;
    let one = odds_at(&cells, &match_name, 1);
    let two = odds_at(&cells, &match_name, 2);
    let three = odds_at(&cells, &match_name, 3);
    let four = odds_at(&cells, &match_name, 4);
    let five = odds_at(&cells, &match_name, 5);
    cells.keep_from(&[1]);
    let kept = odds_at(&cells, &match_name, 1);
    let gone = odds_at(&cells, &match_name, 5);
    Ok([one, two, three, four, five, kept, gone])
}

// Puts the offer of this number, of 40, which are 20 of each of two feeds.
fn put_numbered(
    cells: &mut Cells,
    match_name: Name,
    number: u8,
    thousandths: u32,
    version: u64,
) -> Result<bool, WantOfMemory> {
    let Some(line) = TotalLine::new(i16::from(number % 20) + 2) else {
        return Ok(false);
    };
    let key = CellKey {
        match_name,
        feed: number / 20,
        selection: Selection::Over(line),
    };
    put(cells, key, thousandths, version)
}

// Forty offers are read at version 40 in two parts, between which the first and the last one change.
fn two_parts(alloc: Global, match_name: Name) -> Result<[(usize, u32); 3], WantOfMemory> {
    let mut cells = Cells::new(alloc);
    for number in 0..40u8 {
        put_numbered(&mut cells, match_name, number, 2_000, u64::from(number) + 1)?;
    }
    let first = read(&cells, &match_name, 40, 0);
    put_numbered(&mut cells, match_name, 0, 3_000, 41)?;
    put_numbered(&mut cells, match_name, 39, 3_000, 42)?;
    let second = read(&cells, &match_name, 40, 32);
    Ok([first, second, read(&cells, &match_name, 42, 32)])
}

#[test]
fn reads_at_versions(rt: HostRuntime) -> Result<(), Fail> {
    let match_name = Name::read(b"m1").ok_or("no name")?;
    assert_eq!(rt;
        one_key(rt.alloc(), match_name)?,
        [2_000, 2_000, 2_200, 2_200, 0, 2_000, 0]
    );
    assert_eq!(rt;
        two_parts(rt.alloc(), match_name)?,
        [(32, 2_000), (8, 2_000), (8, 3_000)]
    );
    Ok(())
}
