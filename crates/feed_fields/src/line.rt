//! A whole line, given as it stands before its line feed.
ghost use Rattle.std.specs.Prelude.{◌≡◌, ◌≤◌, ◌<◌, not, length, IfSome, IfOk};
ghost use Rattle.std.specs.List.{position, list_all};
ghost use Rattle.feed_definitions.specs.Forms.{is_text_byte, too_long, without_return, read_ascii, header_form, request_form, header_of, line_form};
ghost use Rattle.feed_fields.specs.Tests.{ascii_test, HasLimitInRange, IfAsks};

use crate::fields::Fields;
use crate::forms::{header_form, request_form};
use feed_definitions::{Cause, Fault, Header, LineForm, Request};
use scan_types::MOST_LINE_BYTES;

// What is wrong with a line that has too many bytes.
fn too_long() -> Fault
    ensures { result ≡ too_long }
{
    Fault {
        column: MOST_LINE_BYTES as u32 + 1,
        cause: Cause::TooLong,
    }
}

// The line without the carriage return at its end, if one is there.
fn without_return(line: &[u8]) -> &[u8]
    ensures value { result.now ≡ without_return line.now }
    ensures within { length result.now ≤ length line.now }
{
    if line.is_empty() {
        return line;
    }
    let last = line.len() - 1;
    if line[last] == b'\r' {
        &line[..last]
    } else {
        line
    }
}

// Whether the byte may stand in a line: a tab, or printable ASCII.
fn is_text_byte(byte: u8) -> bool
    ensures { result ≡ is_text_byte byte }
{
    byte == b'\t' || (b' ' <= byte && byte <= b'~')
}

// The index of the first byte that may not stand in a line.
fn find_other(text: &[u8]) -> Option<usize>
    ensures value { result ≡ position (λ byte. not (is_text_byte byte)) text.now }
    ensures within { IfSome result (λ index. index < length text.now) }
{
    text.iter().position(|byte| !is_text_byte(*byte))
}

// Whether each byte may stand in a line. The loop ends at no byte early, so that it can test many bytes at once.
fn is_text(text: &[u8]) -> bool
    ensures { result ≡ list_all is_text_byte text.now }
{
    let mut is_text = true;
    for byte in text {
        is_text &= is_text_byte(*byte);
    }
    is_text
}

// That each byte may stand in a line.
fn check_bytes(text: &[u8]) -> Result<(), Fault>
    requires { length text.now ≤ MOST_LINE_BYTES }
    ensures { result ≡ ascii_test text.now }
{
    if is_text(text) {
        return Ok(());
    }
    match find_other(text) {
        None => Ok(()),
        Some(index) => Err(Fault {
            column: index as u32 + 1,
            cause: Cause::NotAscii,
        }),
    }
}

// The header that a text is.
fn header_text(text: &[u8]) -> Result<Header, Fault>
    requires { length text.now ≤ MOST_LINE_BYTES }
    ensures { result ≡ read_ascii header_form text.now }
{
    check_bytes(text)?;
    let (header, others) = header_form(Fields::of(text))?;
    others.end()?;
    Ok(header)
}

// The request that a text is.
fn request_text(text: &[u8]) -> Result<Request, Fault>
    requires { length text.now ≤ MOST_LINE_BYTES }
    ensures value { result ≡ read_ascii request_form text.now }
    ensures range { IfOk result (λ request. HasLimitInRange request.change) }
{
    check_bytes(text)?;
    let (request, others) = request_form(Fields::of(text))?;
    others.end()?;
    Ok(request)
}

/// The header that line 1 of a feed is, given as it stands before its line feed, its carriage return included.
///
/// The fault is the first one of these tests: the line is too long, a byte is not allowed, then the fields `feed 1 BOOK RULE` from left
/// to right, and a field too many. O(bytes of the line); takes no memory.
#[tactic(auto, unfolding(feed_definitions::specs::Forms::header_of))]
pub fn read_header(line: &[u8]) -> Result<Header, Fault>
    ensures { result ≡ header_of line.now }
{
    if line.len() > MOST_LINE_BYTES {
        return Err(too_long());
    }
    header_text(without_return(line))
}

/// What any other line is by itself, given as it stands before its line feed, its carriage return included.
///
/// The answer is the first one of these: the line is too long, it is skipped, a byte is not allowed, then the fields of a quote or a
/// withdrawal from left to right, and a field too many. O(bytes of the line); takes no memory.
#[tactic(auto, unfolding(feed_definitions::specs::Forms::line_form))]
pub fn read_line(line: &[u8]) -> LineForm
    ensures value { result ≡ line_form line.now }
    ensures range { IfAsks result (λ request. HasLimitInRange request.change) }
{
    if line.len() > MOST_LINE_BYTES {
        return LineForm::Wrong(too_long());
    }
    let text = without_return(line);
    if Fields::of(text).is_skipped() {
        return LineForm::Skipped;
    }
    match request_text(text) {
        Ok(request) => LineForm::Asks(request),
        Err(fault) => LineForm::Wrong(fault),
    }
}
