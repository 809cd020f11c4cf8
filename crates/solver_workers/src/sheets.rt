//! The sheet of a pin, read in parts of a turn each.

ghost use Rattle.std.specs.Prelude.{◌≡◌, ◌++◌, IfOk, OnOk};
ghost use Rattle.scan_types.specs.Sheets.{IsSheet};
ghost use Rattle.board_definitions.specs.Sheets.{sheet};
ghost use Rattle.turn_lock.specs.Passes.{known, IsPassOf};
ghost use Rattle.quote_board.specs.Shared.{board_part};
ghost use Rattle.solver_workers.specs.Turns.{Holds, StillHolds};

use crate::turns::read_part;
use board_definitions::Law;
use quote_board::{Board, Pin};
use scan_types::{
    LEAST_ODDS, MOST_STANDING, Odds, Offer, Selection, Sheet, VoidRule, WantOfMemory,
};
use std::alloc::Global;
use std::sync::Wait;
use turn_lock::{Pass, TurnLock};

/// An offer that fills a place before one is read into it.
pub fn placeholder() -> Offer {
    Offer {
        feed: 0,
        selection: Selection::Home,
        odds: Odds {
            thousandths: LEAST_ODDS,
        },
        limit: 1,
        rule: VoidRule::Void,
    }
}

/// Appends offers that make a sheet with those before them.
pub fn push_each(sheet: &mut Sheet, more: &[Offer]) -> Result<(), WantOfMemory>
    requires { IsSheet (sheet.old ++ more.now) }
    ensures { OnOk result (sheet.new ≡ sheet.old ++ more.now) }
{
    for k in 0..more.len() {
        sheet.push(more[k])?;
    }
    Ok(())
}

/// The sheet of the pin that the pass holds. Each turn reads at most `MOST_STANDING` offers.
pub(crate) fn read_sheet<R: Wait, W: Law>(
    rt: &R,
    alloc: Global,
    lock: &TurnLock<Board<W>>,
    pass: &mut Pass<Board<W>>,
    pin: &Pin,
) -> Result<Sheet, WantOfMemory>
    requires of { IsPassOf lock.now pass.old }
    requires holds { Holds (known pass.old) pin.now }
    ensures of { IsPassOf lock.now pass.new }
    ensures holds { StillHolds (known pass.old) (known pass.new) pin.now }
    ensures sheet { IfOk result (λ offers. offers ≡ sheet (board_part lock.now).rules (known pass.old).seen pin.now.version pin.now.match_name) }
{
    let mut part = [placeholder(); MOST_STANDING];
    let mut offers = Sheet::new(alloc);
    loop {
        let count = read_part(rt, lock, pass, pin, offers.offers().len(), &mut part);
        push_each(&mut offers, &part[..count])?;
        if count < MOST_STANDING {
            return Ok(offers);
        }
    }
}
