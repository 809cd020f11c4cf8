//! Each match that was quoted, with its newest sheet and its finding.
ghost use Rattle.std.specs.Prelude.{◌≡◌, ◌∷◌, ℕ, List, Some, length, IfOk, IfSome, IsSome, option_and_then};
ghost use Rattle.std.specs.List.{AllZip};
ghost use Rattle.std.specs.Str.{bytes_eq};
ghost use Rattle.indexmap.specs.IndexMap.{IsUnique};
ghost use Rattle.report_definitions.specs.Seen.{SeenFeed};
ghost use Rattle.report_definitions.specs.Report.{AreMatchesOf};
ghost use Rattle.report_laws.specs.Boards.{HoldsLinesOf};
ghost use Rattle.desk_report.specs.Marks.{mark_in};
ghost use Rattle.desk_report.specs.Judged.{filed_at, HasFindings, AllowsFindings, IsPart};

use crate::marks::{Mark, marks_of};
use crate::sheets::newest_sheet;
use board_definitions::{Entry, Event, Law};
use finding_definitions::Finding;
use indexmap::IndexMap;
use quote_board::Board;
use report_definitions::{MatchPart, MatchParts};
use scan_types::{Name, WantOfMemory};
use std::alloc::Global;

// A copy of the finding that the entry at this place files.
fn finding_at(alloc: Global, history: &[Entry], place: u64) -> Result<Finding, WantOfMemory>
    requires { IsSome (filed_at history.now place) }
    ensures { IfOk result (λ finding. filed_at history.now place ≡ Some finding) }
{
    match history.get(place as usize) {
        None => unreachable!(),
        Some(entry) => match &entry.event {
            Event::Filed { finding, .. } => finding.copy(alloc),
            _ => unreachable!(),
        },
    }
}

// A copy of the finding that is filed at the mark.
fn marked_finding(alloc: Global, history: &[Entry], mark: &Mark) -> Result<Finding, WantOfMemory>
    requires { IsSome (option_and_then (filed_at history.now) mark.now.filed) }
    ensures { IfOk result (λ finding. option_and_then (filed_at history.now) mark.now.filed ≡ Some finding) }
{
    match mark.filed {
        None => unreachable!(),
        Some(place) => finding_at(alloc, history, place),
    }
}

// The match with this mark.
fn part_of<W: Law>(
    alloc: Global,
    board: &Board<W>,
    match_name: Name,
    mark: &Mark,
) -> Result<MatchPart, WantOfMemory>
    requires { IsSome (option_and_then (filed_at board.now.history) mark.now.filed) }
    ensures { IfOk result (IsPart board.now.fixed.rules board.now.history match_name mark.now) }
{
    let sheet = newest_sheet(alloc, board, &match_name)?;
    let finding = marked_finding(alloc, board.history(), mark)?;
    Ok(MatchPart {
        match_name,
        sheet,
        finding,
    })
}

// The matches with their marks, in order.
fn parts_of<W: Law>(
    alloc: Global,
    board: &Board<W>,
    marks: &IndexMap<Name, Mark>,
) -> Result<Vec<MatchPart>, WantOfMemory>
    requires { (q : List ℕ) → IfSome (mark_in marks.now q) (λ mark. IsSome (option_and_then (filed_at board.now.history) mark.filed)) }
    ensures unique { IsUnique bytes_eq marks.now }
    ensures parts { IfOk result (λ parts. AllZip (λ entry part. IsPart board.now.fixed.rules board.now.history entry.0 entry.1 part) marks.now.entries parts.items) }
{
    let mut parts = Vec::with_capacity(alloc, marks.len())?;
    for (match_name, mark) in marks {
        let part = part_of(alloc, board, *match_name, mark)?;
        let pushed = parts.push(part);
        prove!(pushed.is_ok());
    }
    Ok(parts)
}

/// The matches that were quoted on a board, rising by the bytes of their names, each with its newest sheet and a copy of its finding:
/// the one last filed for a pin after its last change. If the board holds the lines of some feeds, they are the matches of the report of
/// those feeds.
///
/// Each match that was quoted has such a finding. Costs a look-up of the match for each entry of the history, a sort of the matches, and
/// memory for what it returns and for the marks. Fails only if no memory is left.
pub fn make_matches<W: Law>(alloc: Global, board: &Board<W>) -> Result<MatchParts, WantOfMemory>
    requires { HasFindings board.now.history }
    ensures { IfOk result (λ matches. (budget : ℕ) → AllowsFindings budget (W.allows board.now.fixed.law) →
        (feeds : List SeenFeed) → HoldsLinesOf feeds board.now.fixed.rules board.now.history → AreMatchesOf budget feeds matches) }
{
    let marks = marks_of(alloc, board.history())?;
    Ok(MatchParts::of(parts_of(alloc, board, &marks)?))
}
