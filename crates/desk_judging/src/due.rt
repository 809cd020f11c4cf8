ghost use Rattle.std.specs.Prelude.{◌≡◌, ◌⊎◌, length, IfOk, OnOk, OnErr, MatchBool};
ghost use Rattle.board_definitions.specs.declared.event.Event.TheVariants as event;
ghost use Rattle.board_definitions.specs.Pins.{IsLive, HasNoPin};
ghost use Rattle.board_definitions.specs.Sheets.{sheet};
ghost use Rattle.finding_definitions.specs.declared.finding.Finding.{Finding};
ghost use Rattle.judging_definitions.specs.ExactFinding.{IsFindingOf};
ghost use Rattle.quote_board.specs.Answers.{NoneIsDue};
ghost use Rattle.quote_board.specs.Views.{with_entry};
ghost use Rattle.desk_definitions.specs.Judged.{JudgesLongestDue, GivesUpLongestDue, IsAllJudged, IsJudgedInPart};
ghost use Rattle.desk_judging.specs.Findings.{findings_by};

use crate::sheets::sheet_of;
use finding_definitions::Finding;
use quote_board::{Board, Pick, Pin};
use scan_types::WantOfMemory;
use std::alloc::Global;
use verdict_maker::{Bench, FindingLaw, judge};

/// What is found of the sheet of a live pin.
fn found(
    alloc: Global,
    board: &Board<FindingLaw>,
    bench: &mut Bench,
    pin: &Pin,
) -> Result<Finding, WantOfMemory>
    requires { IsLive board.now.history pin.now }
    ensures finding { IfOk result (IsFindingOf (sheet board.now.fixed.rules board.now.history pin.now.version pin.now.match_name) bench.old) }
    ensures budget { bench.new ≡ bench.old }
{
    let offers = sheet_of(alloc, board, pin)?;
    judge(alloc, bench, &offers)
}

/// Files what is found of the sheet of a live pin. If no memory is left, the pin is given up.
pub fn judge_pinned(
    alloc: Global,
    board: &mut Board<FindingLaw>,
    bench: &mut Bench,
    pin: Pin,
) -> Result<(), WantOfMemory>
    requires live { IsLive board.old.history pin }
    requires budget { bench.old ≡ board.old.fixed.law.budget }
    ensures filed { OnOk result ((finding : Finding) × IsFindingOf (sheet board.old.fixed.rules board.old.history pin.version pin.match_name) bench.old finding × (board.new ≡ with_entry board.old pin.caller (event.Filed pin.version finding))) }
    ensures released { OnErr result (board.new ≡ with_entry board.old pin.caller (event.Released pin.version)) }
    ensures budget_stays { bench.new ≡ bench.old }
{
    match found(alloc, board, bench, &pin) {
        Ok(finding) => {
            board.file(pin, finding);
            Ok(())
        }
        Err(WantOfMemory) => {
            board.release(pin);
            Err(WantOfMemory)
        }
    }
}

/// Judges the match that is due longest, and returns whether there was one.
fn judge_longest_due(
    alloc: Global,
    board: &mut Board<FindingLaw>,
    bench: &mut Bench,
    caller: u8,
) -> Result<bool, WantOfMemory>
    requires no_pin { HasNoPin board.old.history caller }
    requires budget { bench.old ≡ board.old.fixed.law.budget }
    ensures judged { IfOk result (λ more. MatchBool more (JudgesLongestDue board.old.fixed.rules (findings_by bench.old) caller board.old.history board.new.history) (NoneIsDue board.old.history × (board.new ≡ board.old))) }
    ensures stopped { OnErr result ((board.new.history ≡ board.old.history) ⊎ GivesUpLongestDue caller board.old.history board.new.history) }
    ensures no_pin_left { HasNoPin board.new.history caller }
    ensures fixed_stays { board.new.fixed ≡ board.old.fixed }
    ensures budget_stays { bench.new ≡ bench.old }
{
    match board.pin(caller)? {
        Pick::Pinned(pin) => {
            judge_pinned(alloc, board, bench, pin)?;
            Ok(true)
        }
        Pick::Idle => Ok(false),
        Pick::Finished => Ok(false),
    }
}

/// Judges what is due, the match that is due longest first, until no match is due: this caller pins each, and files its
/// finding. The caller holds no pin, and the bench has the budget of the board's law. If no memory is left, it stops, and
/// gives up a pin that it holds; what was filed stays.
pub fn judge_due(
    alloc: Global,
    board: &mut Board<FindingLaw>,
    bench: &mut Bench,
    caller: u8,
) -> Result<(), WantOfMemory>
    requires no_pin { HasNoPin board.old.history caller }
    requires budget { bench.old ≡ board.old.fixed.law.budget }
    ensures judged { OnOk result (IsAllJudged board.old.fixed.rules (findings_by bench.old) caller board.old.history board.new.history) }
    ensures stopped { OnErr result (IsJudgedInPart board.old.fixed.rules (findings_by bench.old) caller board.old.history board.new.history) }
    ensures no_pin_left { HasNoPin board.new.history caller }
    ensures fixed_stays { board.new.fixed ≡ board.old.fixed }
    ensures budget_stays { bench.new ≡ bench.old }
{
    while judge_longest_due(alloc, board, bench, caller)? {}
    Ok(())
}
