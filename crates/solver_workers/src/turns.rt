//! Single turns on a shared board.

ghost use Rattle.std.specs.Prelude.{◌≡◌, ◌≤◌, ◌∷◌, [], false, length, List, IfOk, OnErr};
ghost use Rattle.scan_types.specs.declared.limits.TheConstants.{MOST_STANDING};
ghost use Rattle.board_definitions.specs.declared.event.Entry.{Entry};
ghost use Rattle.board_definitions.specs.Sheets.{sheet};
ghost use Rattle.board_laws.specs.Callers.{holds_pin};
ghost use Rattle.turn_lock.specs.Passes.{known, IsPassOf};
ghost use Rattle.quote_board.specs.Answers.{IsCopied};
ghost use Rattle.quote_board.specs.Shared.{board_part, IsTurnOf};
ghost use Rattle.desk_definitions.specs.Judged.{filed_entry, released_entry};
ghost use Rattle.solver_workers.specs.Turns.{Holds, MakesPin, Picks};

use board_definitions::Law;
use finding_definitions::Finding;
use quote_board::{Board, Pick, Pin};
use scan_types::{Name, Offer, WantOfMemory};
use std::sync::Wait;
use turn_lock::{Pass, TurnLock};

/// Pins the match that is due longest, if one is due.
pub(crate) fn pin_due<R: Wait, W: Law>(
    rt: &R,
    lock: &TurnLock<Board<W>>,
    pass: &mut Pass<Board<W>>,
) -> Result<Pick, WantOfMemory>
    requires of { IsPassOf lock.now pass.old }
    requires free { holds_pin (known pass.old).own ≡ false }
    ensures of { IsPassOf lock.now pass.new }
    ensures picked { IfOk result (λ pick. (history : List Entry) × Picks (board_part lock.now).rules (W.allows (board_part lock.now).law) (known pass.old) history (known pass.new) pick) }
    ensures stopped { OnErr result ((history : List Entry) × IsTurnOf (board_part lock.now).rules (W.allows (board_part lock.now).law) (known pass.old) history [] (known pass.new)) }
{
    let caller = pass.number();
    let mut turn = lock.enter(rt, pass);
    let _legal = turn.state().history();
    match turn.state().pin(caller) {
        Ok(Pick::Pinned(pin)) => {
            turn.commit_one();
            turn.leave();
            Ok(Pick::Pinned(pin))
        }
        Ok(Pick::Idle) => {
            turn.leave();
            Ok(Pick::Idle)
        }
        Ok(Pick::Finished) => {
            turn.leave();
            Ok(Pick::Finished)
        }
        Err(fault) => {
            turn.leave();
            Err(fault)
        }
    }
}

/// Pins the match, whether it is due or not.
pub(crate) fn pin_match<R: Wait, W: Law>(
    rt: &R,
    lock: &TurnLock<Board<W>>,
    pass: &mut Pass<Board<W>>,
    match_name: Name,
) -> Result<Pin, WantOfMemory>
    requires of { IsPassOf lock.now pass.old }
    requires free { holds_pin (known pass.old).own ≡ false }
    ensures of { IsPassOf lock.now pass.new }
    ensures pinned { IfOk result (λ pin. (history : List Entry) × (pin.match_name ≡ match_name) × MakesPin (board_part lock.now).rules (W.allows (board_part lock.now).law) (known pass.old) history (known pass.new) pin) }
    ensures stopped { OnErr result ((history : List Entry) × IsTurnOf (board_part lock.now).rules (W.allows (board_part lock.now).law) (known pass.old) history [] (known pass.new)) }
{
    let caller = pass.number();
    let mut turn = lock.enter(rt, pass);
    let _legal = turn.state().history();
    match turn.state().pin_named(caller, match_name) {
        Ok(pin) => {
            turn.commit_one();
            turn.leave();
            Ok(pin)
        }
        Err(fault) => {
            turn.leave();
            Err(fault)
        }
    }
}

/// Copies offers of the pinned sheet, from a place on, and returns how many: as many as there are and as fit.
pub(crate) fn read_part<R: Wait, W: Law>(
    rt: &R,
    lock: &TurnLock<Board<W>>,
    pass: &mut Pass<Board<W>>,
    pin: &Pin,
    from: usize,
    out: &mut [Offer],
) -> usize
    requires of { IsPassOf lock.now pass.old }
    requires holds { Holds (known pass.old) pin.now }
    requires some { 1 ≤ length out.old }
    requires few { length out.old ≤ MOST_STANDING }
    requires within { from ≤ length (sheet (board_part lock.now).rules (known pass.old).seen pin.now.version pin.now.match_name) }
    ensures of { IsPassOf lock.now pass.new }
    ensures turn { (history : List Entry) × IsTurnOf (board_part lock.now).rules (W.allows (board_part lock.now).law) (known pass.old) history [] (known pass.new) }
    ensures copied { IsCopied (sheet (board_part lock.now).rules (known pass.old).seen pin.now.version pin.now.match_name) from out.old out.new result }
{
    let mut turn = lock.enter(rt, pass);
    let _legal = turn.state().history();
    let count = turn.state().read(pin, from, out);
    turn.leave();
    count
}

/// Files what was found of the pinned sheet, which ends the pin.
pub(crate) fn file_pin<R: Wait, W: Law>(
    rt: &R,
    lock: &TurnLock<Board<W>>,
    pass: &mut Pass<Board<W>>,
    pin: Pin,
    finding: Finding,
)
    requires of { IsPassOf lock.now pass.old }
    requires holds { Holds (known pass.old) pin }
    requires allowed { W.allows (board_part lock.now).law (sheet (board_part lock.now).rules (known pass.old).seen pin.version pin.match_name) finding }
    ensures of { IsPassOf lock.now pass.new }
    ensures filed { (history : List Entry) × IsTurnOf (board_part lock.now).rules (W.allows (board_part lock.now).law) (known pass.old) history (filed_entry (known pass.old).number pin.version finding ∷ []) (known pass.new) }
{
    let mut turn = lock.enter(rt, pass);
    let _legal = turn.state().history();
    turn.state().file(pin, finding);
    turn.commit_one();
    turn.leave();
}

/// Ends the pin without a finding.
pub(crate) fn release_pin<R: Wait, W: Law>(
    rt: &R,
    lock: &TurnLock<Board<W>>,
    pass: &mut Pass<Board<W>>,
    pin: Pin,
)
    requires of { IsPassOf lock.now pass.old }
    requires holds { Holds (known pass.old) pin }
    ensures of { IsPassOf lock.now pass.new }
    ensures released { (history : List Entry) × IsTurnOf (board_part lock.now).rules (W.allows (board_part lock.now).law) (known pass.old) history (released_entry (known pass.old).number pin.version ∷ []) (known pass.new) }
{
    let mut turn = lock.enter(rt, pass);
    let _legal = turn.state().history();
    turn.state().release(pin);
    turn.commit_one();
    turn.leave();
}
