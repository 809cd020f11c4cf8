//! What is still to be read of a line.
ghost use Rattle.std.specs.Prelude.{◌≡◌, ◌≤◌, Bool, not, Ok, IfOk, length};
ghost use Rattle.std.specs.List.{position, position_or_len};
ghost use Rattle.feed_definitions.specs.Fields.{is_separator};

use feed_definitions::{Cause, Fault};
use scan_types::MOST_LINE_BYTES;
use std::marker::Model;

/// A field of a line: a longest run of bytes that are no separators.
#[derive(Drop)]
pub struct Field<'a> {
    column: u32,
    bytes: &'a [u8],
}

impl<'a> Model for Field<'a> {
    ghost use Rattle.feed_definitions.specs.Fields.{Field as FieldView};

    ghost Value = { FieldView };

    ghost view = { λ field. record { column = field.column; bytes = field.bytes.now } };
}

/// The fields of a line that are not read yet, and the column behind the last field that was.
#[derive(Drop)]
pub struct Fields<'a> {
    after: u32,
    rest: &'a [u8],
}

impl<'a> Model for Fields<'a> {
    ghost use Rattle.std.specs.Prelude.{◌+◌, ◌≤◌, length};
    ghost use Rattle.feed_definitions.specs.Fields.{Unread, fields_from};
    ghost use Rattle.scan_types.specs.declared.limits.TheConstants.{MOST_LINE_BYTES};

    ghost Value = { Unread };

    ghost view = { λ fields. record { after = fields.after; others = fields_from fields.after fields.rest.now } };

    ghost invariant = { λ fields. fields.after + length fields.rest.now ≤ MOST_LINE_BYTES + 1 };
}

// Whether the byte is a space or a tab.
fn is_separator(byte: u8) -> bool
    ensures { result ≡ is_separator byte }
{
    byte == b' ' || byte == b'\t'
}

// The index of the first byte that is no separator.
fn field_start(text: &[u8]) -> Option<usize>
    ensures { result ≡ position (λ byte. not (is_separator byte)) text.now }
{
    text.iter().position(|byte| !is_separator(*byte))
}

// The index of the first separator.
fn separator(text: &[u8]) -> Option<usize>
    ensures { result ≡ position is_separator text.now }
{
    text.iter().position(|byte| is_separator(*byte))
}

// The number of bytes before the first separator.
fn field_length(text: &[u8]) -> usize
    ensures value { result ≡ position_or_len is_separator text.now }
    ensures within { result ≤ length text.now }
{
    match separator(text) {
        None => text.len(),
        Some(index) => index,
    }
}

impl<'a> Fields<'a> {
    ghost use Rattle.feed_definitions.specs.Fields.{fields, first_field, nothing_in};
    ghost use Rattle.feed_definitions.specs.Forms.{is_skipped};

    /// All fields of a line that is not too long.
    pub fn of(line: &'a [u8]) -> Fields<'a>
        requires { length line.now ≤ MOST_LINE_BYTES }
        ensures { result ≡ record { after = 1; others = fields line.now } }
    {
        Fields {
            after: 1,
            rest: line,
        }
    }

    /// The next field, and what follows it. Without one, a field is missing behind the last field.
    pub fn next(self) -> Result<(Field<'a>, Fields<'a>), Fault>
        ensures { result ≡ first_field Ok self.entry.after self.entry.others }
    {
        match field_start(self.rest) {
            None => Err(Fault {
                column: self.after,
                cause: Cause::Missing,
            }),
            Some(start) => {
                let (_, text) = self.rest.split_at(start);
                let (bytes, rest) = text.split_at(field_length(text));
                let column = self.after + start as u32;
                let after = column + bytes.len() as u32;
                Ok((Field { column, bytes }, Fields { after, rest }))
            }
        }
    }

    /// That no field is left: the next one is too many.
    pub fn end(self) -> Result<(), Fault>
        ensures { result ≡ nothing_in tt self.entry.others }
    {
        match field_start(self.rest) {
            None => Ok(()),
            Some(start) => Err(Fault {
                column: self.after + start as u32,
                cause: Cause::Extra,
            }),
        }
    }

    /// Whether a line with these fields is skipped: there is none, or the first one begins with `#`.
    pub fn is_skipped(&self) -> bool
        ensures { result ≡ is_skipped self.now.others }
    {
        match field_start(self.rest) {
            None => true,
            Some(start) => self.rest[start] == b'#',
        }
    }
}

impl<'a> Field<'a> {
    ghost use Rattle.feed_definitions.specs.Fields.{at_column};

    /// Its bytes.
    pub fn bytes(&self) -> &'a [u8]
        ensures { result.now ≡ self.now.bytes }
    {
        self.bytes
    }

    /// The column of its first byte, counted from 1.
    pub fn column(&self) -> u32
        ensures { result ≡ self.now.column }
    {
        self.column
    }

    /// What a test of its bytes says, with its column.
    pub fn tested<A>(&self, value: Result<A, Cause>) -> Result<A, Fault>
        ensures said { result ≡ at_column self.now.column value }
        ensures passed { IfOk result (λ found. value ≡ Ok found) }
    {
        match value {
            Ok(value) => Ok(value),
            Err(cause) => Err(Fault {
                column: self.column,
                cause,
            }),
        }
    }
}
