//! What holds of every legal history, whatever keeps it. Each function is empty: its clause is the law.

ghost use Rattle.std.specs.Prelude.{◌≡◌, ◌≤◌, ◌++◌, ℕ, false, List, length, Option};
ghost use Rattle.std.specs.List.{list_any};
ghost use Rattle.scan_types.specs.declared.rule.VoidRule.{VoidRule};
ghost use Rattle.scan_types.specs.Sheets.{IsSheet};
ghost use Rattle.board_definitions.specs.declared.event.Entry.{Entry};
ghost use Rattle.board_definitions.specs.declared.pin.Pin.{Pin};
ghost use Rattle.board_definitions.specs.Entries.{closes};
ghost use Rattle.board_definitions.specs.Sheets.{sheet};
ghost use Rattle.board_definitions.specs.Pins.{IsLive};
ghost use Rattle.board_definitions.specs.Legal.{IsLegal};
ghost use Rattle.board_definitions.specs.WorkedHistories.{HaveWorkedSheets};

use crate::law::Law;

/// In a legal history the sheet of each match at each version is a sheet: at most 256 offers, strictly rising by feed and selection.
pub fn sheets_are_sheets<W: Law>()
    ensures { (rules : List (Option VoidRule)) (law : W) (history : List Entry) → IsLegal rules (W.allows law) history →
        (version : ℕ) (match_name : List ℕ) → IsSheet (sheet rules history version match_name) }
{}

/// Entries that are added later change no sheet at an earlier version.
pub fn earlier_sheets_stay()
    ensures { (rules : List (Option VoidRule)) (history more : List Entry) (version : ℕ) (match_name : List ℕ) →
        version ≤ length history → sheet rules (history ++ more) version match_name ≡ sheet rules history version match_name }
{}

/// A live pin stays live until an entry files or releases it.
pub fn live_pins_stay()
    ensures { (history more : List Entry) (pin : Pin) → IsLive history pin →
        list_any (λ entry. closes pin.version entry.event) more ≡ false → IsLive (history ++ more) pin }
{}

/// In two histories, worked out by hand, each match has at each version the sheet that stands beside it.
pub fn worked_histories_have_these_sheets()
    ensures { HaveWorkedSheets }
{}
