//! The step of one line.
ghost use Rattle.std.specs.Prelude.{◌≡◌, ◌<◌, ◌≤◌, List, [], ◌∷◌, ◌++◌};
ghost use Rattle.std.specs.Str.{bytes_eq};
ghost use Rattle.indexmap.specs.IndexMap.{get as row_at, index_map_len, spare};
ghost use Rattle.feed_definitions.specs.declared.accepted.Accepted.{Accepted as AcceptedLine};
ghost use Rattle.feed_definitions.specs.declared.request.LineForm.TheVariants.{Asks};
ghost use Rattle.feed_definitions.specs.Forms.{header_of};
ghost use Rattle.feed_definitions.specs.Feed.{refusal, form_step, line_answer, accepted_in};
ghost use Rattle.feed_definitions.specs.Answers.{header_step};
ghost use Rattle.feed_fields.specs.Tests.{HasLimitInRange};
ghost use Rattle.feed_lines.specs.Rows.{IsStanding};
ghost use Rattle.feed_lines.specs.Reader.{IsInRange};

use crate::standing::Standing;
use feed_definitions::{Accepted, Fault, LineForm, Refusal, Request, Step};
use feed_fields::{read_header, read_line};
use scan_types::Place;

/// The refusal of the line of this number for this fault.
fn refusal(number: u32, fault: Fault) -> Refusal
    ensures { result ≡ refusal number fault }
{
    Refusal {
        place: Place {
            line: number,
            column: fault.column,
        },
        cause: fault.cause,
    }
}

/// The step of line 1.
pub fn first_step(line: &[u8]) -> Step
    ensures step { result ≡ header_step (header_of line.now) }
    ensures in_range { IsInRange result }
{
    match read_header(line) {
        Ok(header) => Step::Header(header),
        Err(fault) => Step::BadHeader(refusal(1, fault)),
    }
}

/// The step of a well-formed line of this number, which changes what stands if it is accepted.
fn request_step(request: Request, number: u32, standing: &mut Standing) -> Step
    requires room { 0 < spare standing.old.rows }
    requires range { HasLimitInRange request.change }
    ensures in_range { IsInRange result }
    ensures step { (before : List AcceptedLine) → IsStanding (row_at bytes_eq standing.old.rows) (index_map_len standing.old.rows) before →
        result ≡ form_step before number (Asks request) }
    ensures standing { (before : List AcceptedLine) → IsStanding (row_at bytes_eq standing.old.rows) (index_map_len standing.old.rows) before →
        IsStanding (row_at bytes_eq standing.new.rows) (index_map_len standing.new.rows) (before ++ accepted_in (result ∷ [])) }
{
    let selection = request.selection.number();
    match standing.change(&request.match_name, selection, request.change) {
        Some(cause) => Step::Refused(refusal(
            number,
            Fault {
                column: request.column,
                cause,
            },
        )),
        None => Step::Line(Accepted {
            line: number,
            match_name: request.match_name,
            selection: request.selection,
            change: request.change,
        }),
    }
}

/// The step of the line of this number, which is not line 1, and what stands after it.
pub fn line_step(line: &[u8], number: u32, standing: &mut Standing) -> Step
    requires room { 0 < spare standing.old.rows }
    ensures in_range { IsInRange result }
    ensures step { (before : List AcceptedLine) → IsStanding (row_at bytes_eq standing.old.rows) (index_map_len standing.old.rows) before →
        result ≡ line_answer before number line.now }
    ensures standing { (before : List AcceptedLine) → IsStanding (row_at bytes_eq standing.old.rows) (index_map_len standing.old.rows) before →
        IsStanding (row_at bytes_eq standing.new.rows) (index_map_len standing.new.rows) (before ++ accepted_in (result ∷ [])) }
{
    match read_line(line) {
        LineForm::Skipped => Step::Skipped,
        LineForm::Wrong(fault) => Step::Refused(refusal(number, fault)),
        LineForm::Asks(request) => request_step(request, number, standing),
    }
}
