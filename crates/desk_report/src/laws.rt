ghost use Rattle.std.specs.Prelude.{◌≡◌, ℕ, List, Option};
ghost use Rattle.scan_types.specs.declared.rule.VoidRule.{VoidRule};
ghost use Rattle.board_definitions.specs.declared.event.Entry.{Entry};
ghost use Rattle.desk_definitions.specs.Judged.{IsJudged, IsAllJudged};
ghost use Rattle.desk_report.specs.Judged.{HasFindings};
ghost use Rattle.desk_report.specs.Histories.{HasNoPins, lines_in, BodiesHoldTheirLines, BodiesHaveNoPins};

use board_definitions::Law;

/// If every due match of a history without a pin is judged, then each match that is quoted has a finding filed for a pin after its last
/// change.
pub fn judged_histories_have_findings<W: Law>()
    ensures { (rules : List (Option VoidRule)) (law : W) (caller : ℕ) (before after : List Entry) →
        HasNoPins before → IsAllJudged rules (W.allows law) caller before after → HasFindings after }
{}

/// Judging adds no line of a feed.
pub fn judging_adds_no_line<W: Law>()
    ensures { (rules : List (Option VoidRule)) (law : W) (caller : ℕ) (before after : List Entry) →
        IsJudged rules (W.allows law) caller before after → (feed : ℕ) → lines_in feed after ≡ lines_in feed before }
{}

/// The body of a feed holds its accepted lines in order, and no other line and no pin.
pub fn bodies_hold_their_lines()
    ensures lines { BodiesHoldTheirLines }
    ensures pins { BodiesHaveNoPins }
{}
