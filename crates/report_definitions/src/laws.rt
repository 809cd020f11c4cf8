//! What holds of the definitions themselves. Each function is empty: its clause is the law.
ghost use Rattle.report_definitions.specs.Laws.{ReportIsItsLines};

/// The text of a report is the text of its lines one after another, so what is written and what is read line by line are one text.
pub fn a_report_is_its_lines()
    ensures { ReportIsItsLines }
{}
