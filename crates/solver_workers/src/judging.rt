//! Judging of the sheet of a pin, with no turn held.

ghost use Rattle.std.specs.Prelude.{◌≡◌, IfOk, OnOk, OnErr, Some, None};
ghost use Rattle.finding_definitions.specs.declared.finding.Finding.{Finding};
ghost use Rattle.board_definitions.specs.Sheets.{sheet};
ghost use Rattle.turn_lock.specs.Passes.{known, IsPassOf};
ghost use Rattle.quote_board.specs.Shared.{board_part};
ghost use Rattle.solver_workers.specs.Turns.{Holds, StillHolds, EndsPin};

use crate::post::Post;
use crate::sheets::read_sheet;
use crate::turns::{file_pin, release_pin};
use finding_definitions::Finding;
use quote_board::{Board, Judge, Pin};
use scan_types::WantOfMemory;
use std::alloc::Global;
use std::sync::Wait;
use turn_lock::{Pass, TurnLock};

/// What is found of the sheet of the pin that the pass holds.
fn found<R: Wait, J: Judge, G: Post>(
    rt: &R,
    alloc: Global,
    lock: &TurnLock<Board<J::W>>,
    pass: &mut Pass<Board<J::W>>,
    judge: &mut J,
    post: &G,
    pin: &Pin,
) -> Result<Finding, WantOfMemory>
    requires of { IsPassOf lock.now pass.old }
    requires holds { Holds (known pass.old) pin.now }
    requires law { J.law_of judge.old ≡ (board_part lock.now).law }
    ensures of { IsPassOf lock.now pass.new }
    ensures holds { StillHolds (known pass.old) (known pass.new) pin.now }
    ensures allowed { IfOk result (λ finding. J.W.allows (board_part lock.now).law (sheet (board_part lock.now).rules (known pass.old).seen pin.now.version pin.now.match_name) finding) }
    ensures law_stays { J.law_of judge.new ≡ J.law_of judge.old }
{
    let offers = read_sheet(rt, alloc, lock, pass, pin)?;
    post.before_judging(pin.caller, pin.version);
    judge.judge(alloc, &offers)
}

/// Judges the sheet of the pin that the pass holds, and files the finding. If no memory is left, it releases the pin.
pub(crate) fn judge_pin<R: Wait, J: Judge, G: Post>(
    rt: &R,
    alloc: Global,
    lock: &TurnLock<Board<J::W>>,
    pass: &mut Pass<Board<J::W>>,
    judge: &mut J,
    post: &G,
    pin: Pin,
) -> Result<(), WantOfMemory>
    requires of { IsPassOf lock.now pass.old }
    requires holds { Holds (known pass.old) pin }
    requires law { J.law_of judge.old ≡ (board_part lock.now).law }
    ensures of { IsPassOf lock.now pass.new }
    ensures filed { OnOk result ((finding : Finding) × EndsPin (board_part lock.now).rules (J.W.allows (board_part lock.now).law) (known pass.old) (known pass.new) pin (Some finding)) }
    ensures released { OnErr result (EndsPin (board_part lock.now).rules (J.W.allows (board_part lock.now).law) (known pass.old) (known pass.new) pin None) }
    ensures law_stays { J.law_of judge.new ≡ J.law_of judge.old }
{
    match found(rt, alloc, lock, pass, judge, post, &pin) {
        Ok(finding) => {
            file_pin(rt, lock, pass, pin, finding);
            Ok(())
        }
        Err(fault) => {
            release_pin(rt, lock, pass, pin);
            Err(fault)
        }
    }
}

/// What is found of the sheet of the pin that the pass holds, and an equal finding.
pub(crate) fn found_twice<R: Wait, J: Judge, G: Post>(
    rt: &R,
    alloc: Global,
    lock: &TurnLock<Board<J::W>>,
    pass: &mut Pass<Board<J::W>>,
    judge: &mut J,
    post: &G,
    pin: &Pin,
) -> Result<(Finding, Finding), WantOfMemory>
    requires of { IsPassOf lock.now pass.old }
    requires holds { Holds (known pass.old) pin.now }
    requires law { J.law_of judge.old ≡ (board_part lock.now).law }
    ensures of { IsPassOf lock.now pass.new }
    ensures holds { StillHolds (known pass.old) (known pass.new) pin.now }
    ensures allowed { IfOk result (λ both. J.W.allows (board_part lock.now).law (sheet (board_part lock.now).rules (known pass.old).seen pin.now.version pin.now.match_name) both.0) }
    ensures equal { IfOk result (λ both. both.1 ≡ both.0) }
    ensures law_stays { J.law_of judge.new ≡ J.law_of judge.old }
{
    let finding = found(rt, alloc, lock, pass, judge, post, pin)?;
    let copy = finding.copy(alloc)?;
    Ok((finding, copy))
}
