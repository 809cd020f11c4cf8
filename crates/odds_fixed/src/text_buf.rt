//! A text of a fixed room.
ghost use Rattle.std.specs.Prelude.{◌≡◌, ◌+◌, ◌≤◌, [], ◌++◌, length};

use arrayvec::ArrayVec;
use std::marker::Model;

/// Bytes that a `TextBuf` has room for: a line of a report with one name, one selection and a few numbers.
pub const TEXT_BYTES: usize = 512;

/// A text of at most `TEXT_BYTES` bytes, seen as the bytes that it has. It lies in the value itself and takes no memory.
#[derive(Drop)]
pub struct TextBuf {
    written: ArrayVec<u8, TEXT_BYTES>,
}

impl Model for TextBuf {
    ghost use Rattle.std.specs.Prelude.{ℕ, List};

    ghost Value = { List ℕ };

    ghost view = { λ text. text.written.items };
}

impl TextBuf {
    /// An empty text.
    pub fn new() -> TextBuf
        ensures { result ≡ [] }
    {
        TextBuf {
            written: ArrayVec::new(),
        }
    }

    /// The bytes of the text.
    pub fn bytes(&self) -> &[u8]
        ensures value { result.now ≡ self.now }
        ensures few { length self.now ≤ TEXT_BYTES }
    {
        self.written.as_slice()
    }

    /// Appends bytes for which there is room.
    pub fn push_bytes(&mut self, bytes: &[u8])
        requires { length self.old + length bytes.now ≤ TEXT_BYTES }
        ensures { self.new ≡ self.old ++ bytes.now }
    {
        let pushed = self.written.try_extend_from_slice(bytes);
        prove!(pushed.is_ok());
    }

    /// Takes all bytes away.
    pub fn clear(&mut self)
        ensures { self.new ≡ [] }
    {
        self.written.clear();
    }
}
