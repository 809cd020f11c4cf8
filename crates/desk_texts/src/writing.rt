//! Writing what is due.
ghost use Rattle.std.specs.Prelude.{◌≡◌};
ghost use Rattle.desk_definitions.specs.Seen.{sink_seen, IsWritten};

use desk_definitions::status::NOT_WRITTEN;
use desk_io::{Sink, put_all};

/// Writes the text of this status and returns the status, or `NOT_WRITTEN` if a write fails. Takes no memory.
pub fn write_text<K: Sink>(sink: &mut K, status: u8, text: &[u8]) -> u8
    ensures { IsWritten (record { status = status; text = text.now }) result (sink_seen K.written K.faults sink.old sink.new) }
{
    match put_all(sink, text) {
        Ok(()) => status,
        Err(_) => NOT_WRITTEN,
    }
}
