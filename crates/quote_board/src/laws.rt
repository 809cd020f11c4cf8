//! What holds of reads in parts. The function is empty: its clause is the law.

ghost use Rattle.std.specs.Prelude.{◌≡◌, List, Option};
ghost use Rattle.scan_types.specs.declared.rule.VoidRule.{VoidRule};
ghost use Rattle.board_definitions.specs.declared.event.Entry.{Entry};
ghost use Rattle.board_definitions.specs.declared.pin.Pin.{Pin};
ghost use Rattle.board_definitions.specs.Sheets.{sheet};
ghost use Rattle.board_definitions.specs.Pins.{IsLive};
ghost use Rattle.quote_board.specs.Parts.{PartRead, AreParts, offers_read};

/// The parts of a pinned sheet that are read one behind the other, from place 0 to the end, are the whole sheet, whatever entries
/// are added between the reads.
#[tactic(auto, using(crate::proofs::WholeSheets::whole_read))]
pub fn parts_are_the_sheet()
    ensures { (rules : List (Option VoidRule)) (history : List Entry) (pin : Pin) (parts : List PartRead) →
        IsLive history pin → AreParts rules history pin 0 parts → offers_read parts ≡ sheet rules history pin.version pin.match_name }
{}
