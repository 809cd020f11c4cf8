//! Single turns on a shared board.

ghost use Rattle.std.specs.Prelude.{◌≡◌, ◌≢◌, ◌+◌, ◌<◌, ◌≤◌, ◌∷◌, ◌++◌, [], List, IsSome, MatchBool, length, take};
ghost use Rattle.scan_types.specs.declared.limits.TheConstants.{MOST_FEEDS};
ghost use Rattle.board_definitions.specs.declared.event.FeedStop.TheVariants.{BadHeader};
ghost use Rattle.board_definitions.specs.declared.event.Entry.{Entry};
ghost use Rattle.board_definitions.specs.Entries.{rule_of};
ghost use Rattle.feed_definitions.specs.declared.accepted.Accepted.{Accepted as AcceptedLine};
ghost use Rattle.turn_lock.specs.Passes.{known, with_entry, IsPassOf};
ghost use Rattle.turn_lock.specs.Turns.{knows, in_hand, committed, state_of, lock_of, pass_name, IsTurn};
ghost use Rattle.quote_board.specs.Shared.{board_part, IsTurnOf};
ghost use Rattle.desk_definitions.specs.Lines.{entry_of, entries_of, ended_entry};
ghost use Rattle.feed_board_laws.specs.Bodies.{HoldsLines, IsAcceptedAfter};
ghost use Rattle.feed_workers.specs.Runs.{AreAccepted, with_all};

use board_definitions::{FeedStop, Law};
use feed_bodies::add_line;
use feed_definitions::Accepted;
use quote_board::Board;
use std::sync::Wait;
use turn_lock::{Pass, Turn, TurnLock};

/// Adds the entry of one line in a turn, and returns whether memory was left for it. If none was, nothing is added.
fn put_line<W: Law>(turn: &mut Turn<'_, Board<W>>, feed: u8, line: Accepted) -> bool
    requires turn { IsTurn turn.old }
    requires committed { in_hand turn.old ≡ committed turn.old }
    requires number { (knows turn.old).number ≡ feed + 1 }
    requires fits { feed < MOST_FEEDS }
    requires may { (before : List AcceptedLine) × HoldsLines (state_of turn.old).fixed.rules (in_hand turn.old) feed before × IsAcceptedAfter before line }
    ensures turn { IsTurn turn.new × (lock_of turn.new ≡ lock_of turn.old) }
    ensures pass { pass_name turn.new ≡ pass_name turn.old }
    ensures fixed { (state_of turn.new).fixed ≡ (state_of turn.old).fixed }
    ensures put { MatchBool result
        ((in_hand turn.new ≡ in_hand turn.old ++ entry_of feed line ∷ []) × (knows turn.new ≡ with_entry (knows turn.old) (entry_of feed line)))
        ((in_hand turn.new ≡ in_hand turn.old) × (knows turn.new ≡ knows turn.old)) }
{
    if add_line(turn.state(), feed, line).is_ok() {
        turn.commit_one();
        true
    } else {
        false
    }
}

/// Adds the entries of these lines in a turn, as far as memory is left, and returns of how many.
fn put_each<W: Law>(turn: &mut Turn<'_, Board<W>>, feed: u8, lines: &[Accepted]) -> usize
    requires turn { IsTurn turn.old }
    requires committed { in_hand turn.old ≡ committed turn.old }
    requires number { (knows turn.old).number ≡ feed + 1 }
    requires fits { feed < MOST_FEEDS }
    requires may { (before : List AcceptedLine) × HoldsLines (state_of turn.old).fixed.rules (in_hand turn.old) feed before × AreAccepted before lines.now }
    ensures turn { IsTurn turn.new × (lock_of turn.new ≡ lock_of turn.old) }
    ensures pass { pass_name turn.new ≡ pass_name turn.old }
    ensures fixed { (state_of turn.new).fixed ≡ (state_of turn.old).fixed }
    ensures count { result ≤ length lines.now }
    ensures put { in_hand turn.new ≡ in_hand turn.old ++ entries_of feed (take result lines.now) }
    ensures knows { knows turn.new ≡ with_all (knows turn.old) (entries_of feed (take result lines.now)) }
{
    for k in 0..lines.len() {
        if !put_line(turn, feed, lines[k]) {
            return k;
        }
    }
    lines.len()
}

/// Adds the entries of these lines in one turn, as far as memory is left, and returns of how many.
pub(crate) fn put_lines<R: Wait, W: Law>(
    rt: &R,
    lock: &TurnLock<Board<W>>,
    pass: &mut Pass<Board<W>>,
    feed: u8,
    lines: &[Accepted],
) -> usize
    requires of { IsPassOf lock.now pass.old }
    requires number { (known pass.old).number ≡ feed + 1 }
    requires fits { feed < MOST_FEEDS }
    requires exists { IsSome (rule_of (board_part lock.now).rules feed) }
    requires may { (before : List AcceptedLine) × ((known pass.old).own ≡ entries_of feed before) × AreAccepted before lines.now }
    ensures of { IsPassOf lock.now pass.new }
    ensures count { result ≤ length lines.now }
    ensures put { (history : List Entry) × IsTurnOf (board_part lock.now).rules (W.allows (board_part lock.now).law) (known pass.old) history (entries_of feed (take result lines.now)) (known pass.new) }
{
    let mut turn = lock.enter(rt, pass);
    let _before = turn.state().history();
    let count = put_each(&mut turn, feed, lines);
    let _after = turn.state().history();
    turn.leave();
    count
}

/// Adds the end of the feed.
pub(crate) fn put_end<R: Wait, W: Law>(
    rt: &R,
    lock: &TurnLock<Board<W>>,
    pass: &mut Pass<Board<W>>,
    feed: u8,
    stop: FeedStop,
)
    requires of { IsPassOf lock.now pass.old }
    requires number { (known pass.old).number ≡ feed + 1 }
    requires exists { IsSome (rule_of (board_part lock.now).rules feed) }
    requires fits { feed < MOST_FEEDS }
    requires stop { stop ≢ BadHeader }
    requires running { (before : List AcceptedLine) × ((known pass.old).own ≡ entries_of feed before) }
    ensures of { IsPassOf lock.now pass.new }
    ensures ended { (history : List Entry) × IsTurnOf (board_part lock.now).rules (W.allows (board_part lock.now).law) (known pass.old) history (ended_entry feed stop ∷ []) (known pass.new) }
{
    let mut turn = lock.enter(rt, pass);
    let _legal = turn.state().history();
    turn.state().end_feed(feed + 1, feed, stop);
    turn.commit_one();
    turn.leave();
}
