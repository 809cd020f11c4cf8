//! The body of a worker: it judges what is due until every feed has ended.

ghost use Rattle.std.specs.Prelude.{◌≡◌, false, List};
ghost use Rattle.board_definitions.specs.Pins.{HaveAllEnded};
ghost use Rattle.board_definitions.specs.Legal.{IsLegal};
ghost use Rattle.board_laws.specs.Callers.{holds_pin};
ghost use Rattle.turn_lock.specs.Passes.{known, IsPassOf};
ghost use Rattle.quote_board.specs.Answers.{NoneIsDue};
ghost use Rattle.quote_board.specs.Shared.{board_part};
ghost use Rattle.solver_workers.specs.declared.ends.SolverStop.TheVariants.{Finished};
ghost use Rattle.solver_workers.specs.Works.{Work, HasWorked, AreEnded};
ghost use Rattle.solver_workers.specs.Turns.{StepEnds};

use crate::ends::{SolverEnd, SolverStop};
use crate::judging::judge_pin;
use crate::post::Post;
use crate::turns::pin_due;
use quote_board::{Board, Judge, Pick};
use std::alloc::Global;
use std::sync::Wait;
use std::thread;
use turn_lock::{Pass, TurnLock};

/// Judges the match that is due longest, if one is due, and returns why the worker stops, if it does.
fn judge_next<R: Wait, J: Judge, G: Post>(
    rt: &R,
    alloc: Global,
    lock: &TurnLock<Board<J::W>>,
    pass: &mut Pass<Board<J::W>>,
    judge: &mut J,
    post: &G,
) -> Option<SolverStop>
    requires of { IsPassOf lock.now pass.old }
    requires free { holds_pin (known pass.old).own ≡ false }
    requires law { J.law_of judge.old ≡ (board_part lock.now).law }
    ensures of { IsPassOf lock.now pass.new }
    ensures worked { (works : List Work) × HasWorked (board_part lock.now).rules (J.W.allows (board_part lock.now).law) (known pass.old) (known pass.new) works × StepEnds (board_part lock.now).rules (known pass.new).seen result works }
    ensures legal { IsLegal (board_part lock.now).rules (J.W.allows (board_part lock.now).law) (known pass.new).seen }
    ensures law_stays { J.law_of judge.new ≡ J.law_of judge.old }
{
    match pin_due(rt, lock, pass) {
        Ok(Pick::Pinned(pin)) => match judge_pin(rt, alloc, lock, pass, judge, post, pin) {
            Ok(()) => None,
            Err(_) => Some(SolverStop::NoMemory),
        },
        Ok(Pick::Idle) => {
            thread::yield_now();
            None
        }
        Ok(Pick::Finished) => Some(SolverStop::Finished),
        Err(_) => Some(SolverStop::NoMemory),
    }
}

/// Pins the due matches, judges each with no turn held and files its finding, until no match is due and every feed has ended.
///
/// While no match is due and some feed has not ended, it leaves the turn and tries again. So it waits for ever if a feed never ends.
/// If no memory is left, it releases the pin that it holds, if any, and stops.
///
/// The pass holds no pin, and the judge's law is the board's. Each match costs two turns, and one for each `MOST_STANDING` offers
/// of its sheet and one more if none is left over.
pub fn solver_body<R: Wait, J: Judge, G: Post>(
    rt: &R,
    alloc: Global,
    lock: &TurnLock<Board<J::W>>,
    pass: Pass<Board<J::W>>,
    judge: &mut J,
    post: &G,
) -> SolverEnd<Board<J::W>>
    requires of { IsPassOf lock.now pass }
    requires free { holds_pin (known pass).own ≡ false }
    requires law { J.law_of judge.old ≡ (board_part lock.now).law }
    ensures worked { (works : List Work) × HasWorked (board_part lock.now).rules (J.W.allows (board_part lock.now).law) (known pass) (known result.pass) works × AreEnded result.stop works }
    ensures legal { IsLegal (board_part lock.now).rules (J.W.allows (board_part lock.now).law) (known result.pass).seen }
    ensures finished { result.stop ≡ Finished → NoneIsDue (known result.pass).seen × HaveAllEnded (board_part lock.now).rules (known result.pass).seen }
    ensures free { holds_pin (known result.pass).own ≡ false }
    ensures of { IsPassOf lock.now result.pass }
    ensures law_stays { J.law_of judge.new ≡ J.law_of judge.old }
{
    let mut pass = pass;
    for _ in rt.forever() {
        if let Some(stop) = judge_next(rt, alloc, lock, &mut pass, judge, post) {
            return SolverEnd { pass, stop };
        }
    }
    unreachable!()
}
