//! One match, judged for a caller that asks for it.

ghost use Rattle.std.specs.Prelude.{◌≡◌, ◌≤◌, ◌∷◌, [], false, length, List, IfOk, OnErr, Some, None};
ghost use Rattle.board_definitions.specs.Legal.{IsLegal};
ghost use Rattle.board_laws.specs.Callers.{holds_pin};
ghost use Rattle.turn_lock.specs.Passes.{known, IsPassOf};
ghost use Rattle.quote_board.specs.Shared.{board_part};
ghost use Rattle.solver_workers.specs.Works.{Work, HasWorked};
ghost use Rattle.solver_workers.specs.Turns.{EndsPin, Holds, AreGivenUp};

use crate::judging::found_twice;
use crate::post::Post;
use crate::turns::{file_pin, pin_match, release_pin};
use finding_definitions::Finding;
use quote_board::{Board, Judge, Pin};
use scan_types::{Name, WantOfMemory};
use std::alloc::Global;
use std::sync::Wait;
use turn_lock::{Pass, TurnLock};

/// Judges the sheet of the pin that the pass holds, files the finding, and returns an equal one. If no memory is left, it releases
/// the pin.
fn answer_pin<R: Wait, J: Judge, G: Post>(
    rt: &R,
    alloc: Global,
    lock: &TurnLock<Board<J::W>>,
    pass: &mut Pass<Board<J::W>>,
    judge: &mut J,
    post: &G,
    pin: Pin,
) -> Result<Finding, WantOfMemory>
    requires of { IsPassOf lock.now pass.old }
    requires holds { Holds (known pass.old) pin }
    requires law { J.law_of judge.old ≡ (board_part lock.now).law }
    ensures of { IsPassOf lock.now pass.new }
    ensures filed { IfOk result (λ finding. EndsPin (board_part lock.now).rules (J.W.allows (board_part lock.now).law) (known pass.old) (known pass.new) pin (Some finding)) }
    ensures released { OnErr result (EndsPin (board_part lock.now).rules (J.W.allows (board_part lock.now).law) (known pass.old) (known pass.new) pin None) }
    ensures law_stays { J.law_of judge.new ≡ J.law_of judge.old }
{
    match found_twice(rt, alloc, lock, pass, judge, post, &pin) {
        Ok((finding, copy)) => {
            file_pin(rt, lock, pass, pin, finding);
            Ok(copy)
        }
        Err(fault) => {
            release_pin(rt, lock, pass, pin);
            Err(fault)
        }
    }
}

/// Pins the match, judges its sheet with no turn held, files the finding, and returns the pin's version and an equal finding.
///
/// The version is no less than the number of entries that the pass had seen. If no memory is left, a pin that was made is released.
/// The pass holds no pin, and the judge's law is the board's.
pub fn ask<R: Wait, J: Judge, G: Post>(
    rt: &R,
    alloc: Global,
    lock: &TurnLock<Board<J::W>>,
    pass: &mut Pass<Board<J::W>>,
    match_name: Name,
    judge: &mut J,
    post: &G,
) -> Result<(u64, Finding), WantOfMemory>
    requires of { IsPassOf lock.now pass.old }
    requires free { holds_pin (known pass.old).own ≡ false }
    requires law { J.law_of judge.old ≡ (board_part lock.now).law }
    ensures answered { IfOk result (λ answer. HasWorked (board_part lock.now).rules (J.W.allows (board_part lock.now).law) (known pass.old) (known pass.new) (record { match_name = match_name; version = answer.0; finding = Some answer.1 } ∷ [])) }
    ensures recent { IfOk result (λ answer. length (known pass.old).seen ≤ answer.0) }
    ensures given_up { OnErr result ((works : List Work) × HasWorked (board_part lock.now).rules (J.W.allows (board_part lock.now).law) (known pass.old) (known pass.new) works × AreGivenUp match_name works) }
    ensures legal { IsLegal (board_part lock.now).rules (J.W.allows (board_part lock.now).law) (known pass.new).seen }
    ensures free { holds_pin (known pass.new).own ≡ false }
    ensures of { IsPassOf lock.now pass.new }
    ensures law_stays { J.law_of judge.new ≡ J.law_of judge.old }
{
    match pin_match(rt, lock, pass, match_name) {
        Ok(pin) => {
            let version = pin.version;
            match answer_pin(rt, alloc, lock, pass, judge, post, pin) {
                Ok(finding) => Ok((version, finding)),
                Err(fault) => Err(fault),
            }
        }
        Err(fault) => Err(fault),
    }
}
