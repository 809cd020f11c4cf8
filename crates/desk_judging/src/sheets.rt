ghost use Rattle.std.specs.Prelude.{◌≡◌, ◌++◌, IfOk, OnOk};
ghost use Rattle.scan_types.specs.Sheets.{IsSheet};
ghost use Rattle.board_definitions.specs.Pins.{IsLive};
ghost use Rattle.board_definitions.specs.Sheets.{sheet};

use quote_board::{Board, Pin};
use scan_types::{
    LEAST_ODDS, MOST_STANDING, Odds, Offer, Selection, Sheet, VoidRule, WantOfMemory,
};
use std::alloc::Global;
use verdict_maker::FindingLaw;

/// An offer that fills a place before one is read into it.
pub fn placeholder() -> Offer {
    Offer {
        feed: 0,
        selection: Selection::Home,
        odds: Odds {
            thousandths: LEAST_ODDS,
        },
        limit: 1,
        rule: VoidRule::Void,
    }
}

/// Appends offers that make a sheet with those before them.
fn push_each(sheet: &mut Sheet, more: &[Offer]) -> Result<(), WantOfMemory>
    requires { IsSheet (sheet.old ++ more.now) }
    ensures { OnOk result (sheet.new ≡ sheet.old ++ more.now) }
{
    for k in 0..more.len() {
        sheet.push(more[k])?;
    }
    Ok(())
}

/// The sheet of a live pin, read in parts.
pub fn sheet_of(alloc: Global, board: &Board<FindingLaw>, pin: &Pin) -> Result<Sheet, WantOfMemory>
    requires { IsLive board.now.history pin.now }
    ensures { IfOk result (λ offers. offers ≡ sheet board.now.fixed.rules board.now.history pin.now.version pin.now.match_name) }
{
    let _legal = board.history();
    let mut part = [placeholder(); MOST_STANDING];
    let mut offers = Sheet::new(alloc);
    loop {
        let count = board.read(pin, offers.offers().len(), &mut part);
        if count == 0 {
            return Ok(offers);
        }
        push_each(&mut offers, &part[..count])?;
    }
}
