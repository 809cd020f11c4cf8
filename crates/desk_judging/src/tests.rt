ghost use Rattle.std.specs.Prelude.{◌≡◌, [], ℕ, OnOk, IsSome};
ghost use Rattle.board_definitions.specs.Entries.{rule_of};
ghost use Rattle.board_definitions.specs.Pins.{HasNoPin};

use crate::due::judge_pinned;
use crate::judge_due;
use crate::sheets::placeholder;
use finding_definitions::Finding;
use quote_board::{Board, Entry, Event, FeedStop, Key, Pick};
use scan_types::{Name, Odds, Outcome, Selection, VoidRule, WantOfMemory};
use std::alloc::Global;
use std::test::Fail;
use verdict_maker::{Bench, FindingLaw};

// The first quote of the only feed.
fn quote_home(
    board: &mut Board<FindingLaw>,
    match_name: Name,
    odds: Odds,
) -> Result<(), WantOfMemory>
    requires first { board.old.history ≡ [] }
    requires feed { IsSome (rule_of board.old.fixed.rules 0) }
    ensures no_pin { OnOk result ((caller : ℕ) → HasNoPin board.new.history caller) }
    ensures law { board.new.fixed ≡ board.old.fixed }
{
    let key = Key {
        feed: 0,
        match_name,
        selection: Selection::Home,
    };
    board.quote(1, key, odds, 100, 2)
}

fn is_filed_as_coherent(entry: &Entry) -> bool {
    match &entry.event {
        Event::Filed { version, finding } => {
            *version == 1 && matches!(finding, Finding::Coherent(_))
        }
        _ => false,
    }
}

#[test]
fn judges_the_only_match(rt: HostRuntime) -> Result<(), Fail> {
    let law = FindingLaw { budget: 100 };
    let mut board = Board::new(rt.alloc(), law, &[VoidRule::Void])?;
    let mut bench = Bench::new(rt.alloc(), 100);
    let name = Name::read(b"m1").ok_or("name")?;
    let odds = Odds::new(2_100).ok_or("odds")?;
    quote_home(&mut board, name, odds)?;
    judge_due(rt.alloc(), &mut board, &mut bench, 9)?;
    let history = board.history();
    assert_eq!(rt; history.len(), 3);
    assert!(rt;
        history[1].caller == 9 && matches!(history[1].event, Event::Pinned { match_name: _ })
    );
    assert!(rt; history[2].caller == 9 && is_filed_as_coherent(&history[2]));
    Ok(())
}

/// What an entry says, in short: its caller, the first letter of its kind, and the line, or the version of the pin that it ends.
fn told(entry: &Entry) -> (u8, u8, u64) {
    match &entry.event {
        Event::Quoted { line, .. } => (entry.caller, b'q', u64::from(*line)),
        Event::Withdrawn { line, .. } => (entry.caller, b'w', u64::from(*line)),
        Event::Ended { .. } => (entry.caller, b'e', 0),
        Event::Pinned { .. } => (entry.caller, b'p', 0),
        Event::Filed { version, .. } => (entry.caller, b'f', *version),
        Event::Released { version } => (entry.caller, b'r', *version),
    }
}

fn is_one_draw(entries: &[(Outcome, u64)]) -> bool {
    if entries.len() != 1 {
        return false;
    }
    let (outcome, weight) = entries[0];
    outcome == Outcome::Full(0, 0) && weight == 1
}

fn is_coherent_at_a_draw(entry: &Entry) -> bool {
    match &entry.event {
        Event::Filed {
            finding: Finding::Coherent(measure),
            ..
        } => is_one_draw(measure.items()),
        _ => false,
    }
}

// A pin keeps its sheet while the odds change, and its finding is filed after the feed has ended. Returns whether each call gave
// what it should.
fn play(
    alloc: Global,
    board: &mut Board<FindingLaw>,
    bench: &mut Bench,
    key: Key,
    odds: (Odds, Odds),
) -> Result<bool, WantOfMemory>
    requires first { board.old.history ≡ [] }
    requires feed { key.feed ≡ 0 }
    requires rule { IsSome (rule_of board.old.fixed.rules 0) }
    requires budget { bench.old ≡ board.old.fixed.law.budget }
{
    let Pick::Idle = board.pin(2)? else {
        return Ok(false);
    };
    board.quote(1, key, odds.0, 100, 2)?;
    let Pick::Pinned(before) = board.pin(2)? else {
        return Ok(false);
    };
    board.quote(1, key, odds.1, 100, 3)?;
    let mut out = [placeholder(); 2];
    let count = board.read(&before, 0, &mut out);
    let is_before = count == 1 && out[0].odds == odds.0;
    let Pick::Pinned(after) = board.pin(3)? else {
        return Ok(false);
    };
    let versions = (before.version, after.version);
    board.end_feed(1, 0, FeedStop::End);
    judge_pinned(alloc, board, bench, before)?;
    board.release(after);
    let Pick::Finished = board.pin(2)? else {
        return Ok(false);
    };
    Ok(is_before && versions == (1, 3))
}

#[test]
fn a_pin_keeps_its_sheet_until_its_finding_is_filed(rt: HostRuntime) -> Result<(), Fail> {
    let law = FindingLaw { budget: 4096 };
    let mut board = Board::new(rt.alloc(), law, &[VoidRule::Void])?;
    let mut bench = Bench::new(rt.alloc(), 4096);
    let key = Key {
        feed: 0,
        match_name: Name::read(b"m1").ok_or("name")?,
        selection: Selection::Home,
    };
    let odds = (
        Odds::new(2_000).ok_or("odds")?,
        Odds::new(2_200).ok_or("odds")?,
    );
    assert!(rt; play(rt.alloc(), &mut board, &mut bench, key, odds)?);
    let history = board.history();
    assert_eq!(rt; history.len(), 7);
    let given = [
        told(&history[0]),
        told(&history[1]),
        told(&history[2]),
        told(&history[3]),
        told(&history[4]),
        told(&history[5]),
        told(&history[6]),
    ];
    let want = [
        (1, b'q', 2),
        (2, b'p', 0),
        (1, b'q', 3),
        (3, b'p', 0),
        (1, b'e', 0),
        (2, b'f', 1),
        (3, b'r', 3),
    ];
    assert_eq!(rt; given, want);
    assert!(rt; is_coherent_at_a_draw(&history[5]));
    Ok(())
}
