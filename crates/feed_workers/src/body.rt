//! The body of a feed: it is read with no turn held, and what is in hand is added in one turn.

ghost use Rattle.std.specs.Prelude.{◌≡◌, ◌≢◌, ◌+◌, ◌<◌, [], List, Some, IsSome, IfNone, Option};
ghost use Rattle.scan_types.specs.declared.limits.TheConstants.{MOST_FEEDS};
ghost use Rattle.board_definitions.specs.declared.event.FeedStop.TheVariants.{ReadFault};
ghost use Rattle.board_definitions.specs.Entries.{rule_of};
ghost use Rattle.board_definitions.specs.Legal.{IsLegal};
ghost use Rattle.feed_definitions.specs.declared.accepted.Accepted.{Accepted as AcceptedLine};
ghost use Rattle.turn_lock.specs.Passes.{known, IsPassOf};
ghost use Rattle.quote_board.specs.Shared.{board_part, IsLaterPass};
ghost use Rattle.feed_bodies.specs.Bodies.{IsBegun, ReadsOn};
ghost use Rattle.feed_workers.specs.Runs.{IsBodyRun, IsPut, IsPutOver, Rounds};

use crate::gathering::gather;
use crate::run::FeedRun;
use crate::turns::{put_end, put_lines};
use board_definitions::{FeedStop, Law};
use desk_definitions::FeedEnd;
use desk_io::Source;
use feed_definitions::{Accepted, Header, Refusals};
use feed_lines::FeedReader;
use quote_board::Board;
use std::alloc::Global;
use std::sync::Wait;
use turn_lock::{Pass, TurnLock};

/// Gathers what is in hand, adds it in one turn, and returns how the feed stopped, if it did.
fn take_round<R: Wait, W: Law, S: Source + Drop>(
    rt: &R,
    lock: &TurnLock<Board<W>>,
    pass: &mut Pass<Board<W>>,
    feed: u8,
    header: &Header,
    lines: &mut Vec<Accepted>,
    refusals: &mut Refusals,
    reader: &mut FeedReader<S>,
) -> Option<FeedStop>
    requires of { IsPassOf lock.now pass.old }
    requires number { (known pass.old).number ≡ feed + 1 }
    requires fits { feed < MOST_FEEDS }
    requires exists { IsSome (rule_of (board_part lock.now).rules feed) }
    requires put { IsPut S.left feed (board_part lock.now).rules header.now (known pass.old).own refusals.old reader.old }
    requires empty { lines.old.items ≡ [] }
    ensures round { Rounds S.left feed (board_part lock.now).rules header.now S.faults (known pass.new).own refusals.new reader.new result }
    ensures of { IsPassOf lock.now pass.new }
    ensures later { IsLaterPass (known pass.old) (known pass.new) }
    ensures empty { IfNone result (lines.new.items ≡ []) }
    ensures counted { IfNone result (reader.old.answers < reader.new.answers) }
    ensures promised { S.never_fails reader.old.source → result ≢ Some ReadFault }
    ensures no_fault { result ≢ Some ReadFault → S.faults reader.new.source ≡ S.faults reader.old.source }
    ensures goes_on { ReadsOn S.left S.faults S.later S.never_fails reader.old reader.new }
{
    let stop = gather(lines, refusals, feed, reader);
    let count = put_lines(rt, lock, pass, feed, lines.as_slice());
    if count < lines.len() {
        return Some(FeedStop::NoMemory);
    }
    lines.clear();
    stop
}

/// Reads the lines behind the header, adds them round by round, and returns how the feed stopped.
fn read_on<R: Wait, W: Law, S: Source + Drop>(
    rt: &R,
    alloc: Global,
    lock: &TurnLock<Board<W>>,
    pass: &mut Pass<Board<W>>,
    feed: u8,
    header: &Header,
    refusals: &mut Refusals,
    reader: &mut FeedReader<S>,
) -> FeedStop
    requires of { IsPassOf lock.now pass.old }
    requires number { (known pass.old).number ≡ feed + 1 }
    requires fits { feed < MOST_FEEDS }
    requires exists { IsSome (rule_of (board_part lock.now).rules feed) }
    requires put { IsPut S.left feed (board_part lock.now).rules header.now (known pass.old).own refusals.old reader.old }
    ensures over { IsPutOver S.left feed (board_part lock.now).rules header.now S.faults (known pass.new).own refusals.new reader.new result }
    ensures of { IsPassOf lock.now pass.new }
    ensures later { IsLaterPass (known pass.old) (known pass.new) }
    ensures promised { S.never_fails reader.old.source → result ≢ ReadFault }
    ensures no_fault { result ≢ ReadFault → S.faults reader.new.source ≡ S.faults reader.old.source }
    ensures goes_on { ReadsOn S.left S.faults S.later S.never_fails reader.old reader.new }
{
    let mut lines = Vec::new(alloc);
    loop {
        if let Some(stop) = take_round(rt, lock, pass, feed, header, &mut lines, refusals, reader) {
            return stop;
        }
    }
}

/// Reads the body of a feed whose header was read, and adds each accepted line to the shared board, in order, and then the end of the
/// feed. It reads and parses with no turn held, and adds up to `MOST_IN_HAND` lines in one turn. What is in hand is added before a read.
///
/// If no memory is left, the feed ends there with `NoMemory`: the board has the first of its accepted lines, and the end keeps the first
/// of its refused lines. The source is handed back in the end, with what was not taken of it.
///
/// The pass is the feed's own: it has number `feed + 1` and has added nothing. The feed's number is below `MOST_FEEDS`, and the board has
/// it under the rule of its header.
pub fn feed_body<R: Wait, W: Law, S: Source + Drop>(
    rt: &R,
    alloc: Global,
    lock: &TurnLock<Board<W>>,
    pass: Pass<Board<W>>,
    feed: u8,
    header: Header,
    reader: FeedReader<S>,
) -> FeedRun<Board<W>, S>
    requires of { IsPassOf lock.now pass }
    requires number { (known pass).number ≡ feed + 1 }
    requires fresh { (known pass).own ≡ [] }
    requires fits { feed < MOST_FEEDS }
    requires rule { rule_of (board_part lock.now).rules feed ≡ Some header.rule }
    requires reader { IsBegun S.left feed header reader }
    ensures body { IsBodyRun S.left S.faults S.later S.never_fails feed header reader result.end (known result.pass).own }
    ensures of { IsPassOf lock.now result.pass }
    ensures later { IsLaterPass (known pass) (known result.pass) }
    ensures legal { IsLegal (board_part lock.now).rules (W.allows (board_part lock.now).law) (known result.pass).seen }
    ensures promised { S.never_fails reader.source → result.end.stop ≢ ReadFault }
    ensures no_fault { result.end.stop ≢ ReadFault → S.faults result.end.source ≡ S.faults reader.source }
{
    let mut pass = pass;
    let mut reader = reader;
    let mut refusals = Refusals::new(alloc);
    let stop = read_on(
        rt,
        alloc,
        lock,
        &mut pass,
        feed,
        &header,
        &mut refusals,
        &mut reader,
    );
    let lines = reader.lines();
    put_end(rt, lock, &mut pass, feed, stop);
    let end = FeedEnd {
        feed,
        header: Some(header),
        lines,
        refusals,
        stop,
        source: reader.into_source(),
    };
    FeedRun { end, pass }
}
