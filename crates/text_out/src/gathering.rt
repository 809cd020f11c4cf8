//! Gathering a text, so that it goes to a sink in few writes.
ghost use Rattle.std.specs.Prelude.{◌≡◌, ◌≤◌, ◌+◌, ◌++◌, [], OnOk, length};
ghost use Rattle.text_out.specs.Written.{Wrote, Gathered};

use arrayvec::ArrayVec;
use desk_io::{Sink, WriteFailed, put_all};
use std::marker::Model;

/// Bytes that are gathered before they are handed on: one write for about a hundred lines of a report.
pub const PIECE_BYTES: usize = 4_096;

/// The end of a text that was not handed on yet, seen as the bytes that it has: at most `PIECE_BYTES`. It lies in the value itself.
#[derive(Drop)]
pub struct TextOut {
    held: ArrayVec<u8, PIECE_BYTES>,
}

impl Model for TextOut {
    ghost use Rattle.std.specs.Prelude.{ℕ, List};

    ghost Value = { List ℕ };

    ghost view = { λ text. text.held.items };
}

impl TextOut {
    /// No text.
    pub fn new() -> TextOut
        ensures { result ≡ [] }
    {
        TextOut {
            held: ArrayVec::new(),
        }
    }

    /// Puts a piece behind the text that is held. Each time `PIECE_BYTES` are held, they are handed on. At `Err` a write failed, the
    /// sink has a front of the text, and what is held is of no use.
    ///
    /// O(piece), with a `put_all` for each `PIECE_BYTES` bytes, and one for all that is left of a longer piece. Takes no memory.
    pub fn gather<K: Sink>(&mut self, piece: &[u8], sink: &mut K) -> Result<(), WriteFailed>
        ensures { Gathered (K.written sink.old) (K.written sink.new) (K.faults sink.old) (K.faults sink.new) self.old self.new piece.now result }
    {
        let room = self.room();
        if piece.len() <= room {
            self.push(piece);
            return Ok(());
        }
        let (front, rest) = piece.split_at(room);
        self.push(front);
        self.hand_on(sink)?;
        self.begin(rest, sink)
    }

    /// Hands all of the text that is held on to the sink, and holds none after it.
    ///
    /// One `put_all`. Takes no memory.
    pub fn hand_on<K: Sink>(&mut self, sink: &mut K) -> Result<(), WriteFailed>
        ensures written { Wrote (K.written sink.old) (K.written sink.new) (K.faults sink.old) (K.faults sink.new) self.old result }
        ensures empty { OnOk result (self.new ≡ []) }
    {
        put(sink, self.held.as_slice())?;
        self.held.clear();
        Ok(())
    }

    // How many more bytes can be held.
    fn room(&self) -> usize
        ensures { result + length self.now ≡ PIECE_BYTES }
    {
        PIECE_BYTES - self.held.as_slice().len()
    }

    // Holds these bytes too.
    fn push(&mut self, bytes: &[u8])
        requires { length self.old + length bytes.now ≤ PIECE_BYTES }
        ensures { self.new ≡ self.old ++ bytes.now }
    {
        let pushed = self.held.try_extend_from_slice(bytes);
        prove!(pushed.is_ok());
    }

    // Gathers a piece where none is held. One that is too long to be held goes out as it is.
    fn begin<K: Sink>(&mut self, piece: &[u8], sink: &mut K) -> Result<(), WriteFailed>
        requires { self.old ≡ [] }
        ensures { Gathered (K.written sink.old) (K.written sink.new) (K.faults sink.old) (K.faults sink.new) [] self.new piece.now result }
    {
        if piece.len() > PIECE_BYTES {
            return put(sink, piece);
        }
        self.push(piece);
        Ok(())
    }
}

// All of the bytes.
fn put<K: Sink>(sink: &mut K, bytes: &[u8]) -> Result<(), WriteFailed>
    ensures { Wrote (K.written sink.old) (K.written sink.new) (K.faults sink.old) (K.faults sink.new) bytes.now result }
{
    put_all(sink, bytes)
}
