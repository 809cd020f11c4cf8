mod looks;
mod plays;

use plays::{Answer, Call, CheckedBoard, NONE, Row, Terms};
use scan_types::{Name, Selection, VoidRule, WantOfMemory};
use std::alloc::Global;
use std::process::Abort;
use std::test::Fail;

/// No offers.
const EMPTY: [Terms; 3] = [NONE, NONE, NONE];

/// A name of these bytes.
fn name(rt: &impl Abort, text: &[u8]) -> Name {
    Name::read(text).expect(rt, "a name")
}

/// One offer.
fn one(offer: Terms) -> [Terms; 3] {
    [offer, NONE, NONE]
}

/// Two offers.
fn two(first: Terms, second: Terms) -> [Terms; 3] {
    [first, second, NONE]
}

/// A row of a board on whose second match nothing is quoted.
fn row(call: Call, answer: Answer, entries: usize, sheet: [Terms; 3]) -> Row {
    Row {
        call,
        answer,
        entries,
        sheets: (sheet, EMPTY),
    }
}

/// A row of a board with two matches.
fn both(call: Call, answer: Answer, entries: usize, first: [Terms; 3], second: [Terms; 3]) -> Row {
    Row {
        call,
        answer,
        entries,
        sheets: (first, second),
    }
}

// One feed. A pin keeps its sheet while the odds change, and what changed since is due again.
fn pinned_again(alloc: Global, names: (Name, Name)) -> Result<bool, WantOfMemory> {
    let mut board = CheckedBoard::new(alloc, names, &[VoidRule::Void])?;
    let before = one((0, 0, 2_000));
    let after = one((0, 0, 2_200));
    let rows = [
        row(Call::Pin(2), Answer::Idle, 0, EMPTY),
        row(
            Call::Quote(0, 0, Selection::Home, 2_000, 2),
            Answer::Done,
            1,
            before,
        ),
        row(Call::Pin(2), Answer::Pinned(1), 2, before),
        row(
            Call::Quote(0, 0, Selection::Home, 2_200, 3),
            Answer::Done,
            3,
            after,
        ),
        row(Call::Read(2, 1, 0), Answer::Copied(1, before), 3, after),
        row(Call::End(0), Answer::Done, 4, after),
        row(Call::File(2, 1, 0), Answer::Done, 5, after),
        row(Call::Pin(2), Answer::Pinned(5), 6, after),
        row(Call::File(2, 5, 0), Answer::Done, 7, after),
        row(Call::Pin(2), Answer::Finished, 7, after),
    ];
    Ok(board.first_other(alloc, &rows)? == rows.len())
}

// One feed and two callers that pin. Both ways to end a pin take their room from it.
fn filed_and_released(alloc: Global, names: (Name, Name)) -> Result<bool, WantOfMemory> {
    let mut board = CheckedBoard::new(alloc, names, &[VoidRule::Void])?;
    let before = one((0, 0, 2_000));
    let after = one((0, 0, 2_200));
    let rows = [
        row(Call::Pin(2), Answer::Idle, 0, EMPTY),
        row(
            Call::Quote(0, 0, Selection::Home, 2_000, 2),
            Answer::Done,
            1,
            before,
        ),
        row(Call::Pin(2), Answer::Pinned(1), 2, before),
        row(
            Call::Quote(0, 0, Selection::Home, 2_200, 3),
            Answer::Done,
            3,
            after,
        ),
        row(Call::Read(2, 1, 0), Answer::Copied(1, before), 3, after),
        row(Call::Pin(3), Answer::Pinned(3), 4, after),
        row(Call::End(0), Answer::Done, 5, after),
        row(Call::File(2, 1, 0), Answer::Done, 6, after),
        row(Call::Release(3, 3, 0), Answer::Done, 7, after),
        row(Call::Pin(2), Answer::Finished, 7, after),
    ];
    Ok(board.first_other(alloc, &rows)? == rows.len())
}

#[test]
fn one_feed_is_quoted_pinned_and_filed(rt: HostRuntime) -> Result<(), Fail> {
    let names = (name(&rt, b"m1"), name(&rt, b"m2"));
    assert!(rt; pinned_again(rt.alloc(), names)?);
    assert!(rt; filed_and_released(rt.alloc(), names)?);
    Ok(())
}

// Two feeds change two matches, and each sheet is pinned by a caller of its own.
fn changes(alloc: Global, board: &mut CheckedBoard) -> Result<bool, WantOfMemory> {
    let draw = one((0, 1, 3_000));
    let home = one((0, 0, 2_000));
    let homes = two((0, 0, 2_000), (1, 0, 1_900));
    let last = one((1, 0, 1_900));
    let mixed = two((0, 2, 4_000), (1, 0, 1_900));
    let raised = two((0, 2, 4_000), (1, 0, 2_100));
    let rows = [
        row(
            Call::Quote(0, 0, Selection::Home, 2_000, 2),
            Answer::Done,
            1,
            home,
        ),
        row(Call::PinNamed(11, 0), Answer::Pinned(1), 2, home),
        row(
            Call::Quote(1, 0, Selection::Home, 1_900, 2),
            Answer::Done,
            3,
            homes,
        ),
        row(Call::PinNamed(12, 0), Answer::Pinned(3), 4, homes),
        both(
            Call::Quote(0, 1, Selection::Draw, 3_000, 3),
            Answer::Done,
            5,
            homes,
            draw,
        ),
        both(Call::PinNamed(13, 1), Answer::Pinned(5), 6, homes, draw),
        both(
            Call::Withdraw(0, 0, Selection::Home, 4),
            Answer::Done,
            7,
            last,
            draw,
        ),
        both(Call::PinNamed(14, 0), Answer::Pinned(7), 8, last, draw),
        both(
            Call::Quote(0, 0, Selection::Away, 4_000, 5),
            Answer::Done,
            9,
            mixed,
            draw,
        ),
        both(Call::PinNamed(15, 0), Answer::Pinned(9), 10, mixed, draw),
        both(
            Call::Quote(1, 0, Selection::Home, 2_100, 3),
            Answer::Done,
            11,
            raised,
            draw,
        ),
    ];
    Ok(board.first_other(alloc, &rows)? == rows.len())
}

// The match that was changed first is pinned first, also where the other was changed later.
fn due_in_turn(alloc: Global, board: &mut CheckedBoard) -> Result<bool, WantOfMemory> {
    let draw = one((0, 1, 3_000));
    let draws = two((0, 1, 3_000), (1, 1, 3_100));
    let raised = two((0, 2, 4_000), (1, 0, 2_100));
    let three = [(0, 0, 2_500), (0, 2, 4_000), (1, 0, 2_100)];
    let rows = [
        both(Call::Pin(16), Answer::Pinned(11), 12, raised, draw),
        both(Call::Pin(17), Answer::Idle, 12, raised, draw),
        both(
            Call::Quote(1, 1, Selection::Draw, 3_100, 4),
            Answer::Done,
            13,
            raised,
            draws,
        ),
        both(
            Call::Quote(0, 0, Selection::Home, 2_500, 6),
            Answer::Done,
            14,
            three,
            draws,
        ),
        both(Call::Pin(17), Answer::Pinned(14), 15, three, draws),
        both(
            Call::Read(17, 14, 1),
            Answer::Copied(2, draws),
            15,
            three,
            draws,
        ),
        both(Call::Pin(18), Answer::Pinned(15), 16, three, draws),
        both(Call::Pin(19), Answer::Idle, 16, three, draws),
    ];
    Ok(board.first_other(alloc, &rows)? == rows.len())
}

// The sheet of each version, whatever came after it.
fn sheets_stay(alloc: Global, board: &mut CheckedBoard) -> Result<bool, WantOfMemory> {
    let draws = two((0, 1, 3_000), (1, 1, 3_100));
    let three = [(0, 0, 2_500), (0, 2, 4_000), (1, 0, 2_100)];
    let homes = two((0, 0, 2_000), (1, 0, 1_900));
    let last = one((1, 0, 1_900));
    let mixed = two((0, 2, 4_000), (1, 0, 1_900));
    let raised = two((0, 2, 4_000), (1, 0, 2_100));
    let rows = [
        both(
            Call::Read(11, 1, 0),
            Answer::Copied(1, one((0, 0, 2_000))),
            16,
            three,
            draws,
        ),
        both(
            Call::Read(12, 3, 0),
            Answer::Copied(2, homes),
            16,
            three,
            draws,
        ),
        both(
            Call::Read(13, 5, 1),
            Answer::Copied(1, one((0, 1, 3_000))),
            16,
            three,
            draws,
        ),
        both(
            Call::Read(14, 7, 0),
            Answer::Copied(1, last),
            16,
            three,
            draws,
        ),
        both(
            Call::Read(15, 9, 0),
            Answer::Copied(2, mixed),
            16,
            three,
            draws,
        ),
        both(
            Call::Read(16, 11, 0),
            Answer::Copied(2, raised),
            16,
            three,
            draws,
        ),
        both(
            Call::Read(18, 15, 0),
            Answer::Copied(3, three),
            16,
            three,
            draws,
        ),
    ];
    Ok(board.first_other(alloc, &rows)? == rows.len())
}

// Compiles only if the value may move between threads.
fn may_move<T: Send>(_value: &T) {}

#[test]
fn each_version_keeps_its_sheet(rt: HostRuntime) -> Result<(), Fail> {
    let alloc = rt.alloc();
    let names = (name(&rt, b"m1"), name(&rt, b"m2"));
    let mut board = CheckedBoard::new(alloc, names, &[VoidRule::Void, VoidRule::Score])?;
    may_move(&board);
    assert!(rt; changes(alloc, &mut board)?);
    assert!(rt; due_in_turn(alloc, &mut board)?);
    assert!(rt; sheets_stay(alloc, &mut board)?);
    Ok(())
}
