ghost use Rattle.report_laws.specs.Laws.{OneListOfMatches, OneReport, FindingsAreRight};
ghost use Rattle.report_laws.specs.Boards.{SheetsAreTheReports, MatchesAreTheReports};

/// Feeds with a budget have at most one list of matches, each with its sheet and its finding, and at most one report. So every program
/// that meets the definition writes the same bytes.
pub fn feeds_have_one_report()
    ensures matches { OneListOfMatches }
    ensures report { OneReport }
{}

/// What each finding of a report says of its sheet is so: each verdict is right, and so is each narrow finding.
pub fn findings_of_a_report_are_right()
    ensures { FindingsAreRight }
{}

/// If the quotes and withdrawals of a history are, feed by feed, the accepted lines, then the sheet of each match after the whole history
/// is the report's, and the matches quoted in it are the report's. The order of lines of different feeds makes no difference.
pub fn a_board_of_the_lines_has_the_reports_sheets()
    ensures sheets { SheetsAreTheReports }
    ensures matches { MatchesAreTheReports }
{}
