//! The newest sheet of a match, copied part by part.
ghost use Rattle.std.specs.Prelude.{◌≡◌, ◌++◌, length, OnOk, IfOk};
ghost use Rattle.scan_types.specs.Sheets.{IsSheet};
ghost use Rattle.board_definitions.specs.Sheets.{sheet};

use board_definitions::Law;
use quote_board::Board;
use scan_types::{
    LEAST_ODDS, MOST_OFFERS, MOST_STANDING, Name, Odds, Offer, Selection, Sheet, VoidRule,
    WantOfMemory,
};
use std::alloc::Global;

// Some offer, for the places into which offers are copied.
fn some_offer() -> Offer {
    Offer {
        feed: 0,
        selection: Selection::Home,
        odds: Odds {
            thousandths: LEAST_ODDS,
        },
        limit: 1,
        rule: VoidRule::Void,
    }
}

// Appends offers with which the sheet is one.
fn push_all(sheet: &mut Sheet, offers: &[Offer]) -> Result<(), WantOfMemory>
    requires { IsSheet (sheet.old ++ offers.now) }
    ensures { OnOk result (sheet.new ≡ sheet.old ++ offers.now) }
{
    for offer in offers {
        sheet.push(*offer)?;
    }
    Ok(())
}

/// The sheet of the match as it is now, with memory of its own.
pub(crate) fn newest_sheet<W: Law>(
    alloc: Global,
    board: &Board<W>,
    match_name: &Name,
) -> Result<Sheet, WantOfMemory>
    ensures { IfOk result (λ copy. copy ≡ sheet board.now.fixed.rules board.now.history (length board.now.history) match_name.now) }
{
    let mut copy = Sheet::new(alloc);
    let mut part = [some_offer(); MOST_STANDING];
    board.history();
    while copy.offers().len() < MOST_OFFERS {
        let count = board.newest(match_name, copy.offers().len(), &mut part);
        if count == 0 {
            return Ok(copy);
        }
        push_all(&mut copy, &part[..count])?;
    }
    Ok(copy)
}
