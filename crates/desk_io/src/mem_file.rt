//! A file in memory.
ghost use Rattle.std.specs.Prelude.{◌≡◌, ◌≤◌, string_bytes};
ghost use Rattle.desk_io.specs.MemOpener.{unread};

use crate::MemSource;
use std::marker::Model;

/// A file's name and bytes, and how a source of it gives them.
#[derive(Drop)]
pub struct MemFile {
    name: String,
    bytes: Vec<u8>,
    piece: usize,
    failing: Vec<u32>,
}

impl Model for MemFile {
    ghost use Rattle.std.specs.Prelude.{◌≤◌, string_bytes};
    ghost use Rattle.desk_io.specs.MemOpener.{FileState};

    ghost Value = { FileState };

    ghost view = { λ f. record {
      name = string_bytes f.name;
      bytes = f.bytes.items;
      piece = f.piece;
      failing = f.failing.items;
    } };

    ghost invariant = { λ f. 1 ≤ f.piece };
}

impl MemFile {
    /// A file of this name with these bytes, at most `piece` of them a read. `failing` has the numbers,
    /// from 1 on, of the reads that fail.
    pub fn of(name: String, bytes: Vec<u8>, piece: usize, failing: Vec<u32>) -> MemFile
        requires { 1 ≤ piece }
        ensures { result ≡ record {
          name = string_bytes name;
          bytes = bytes.items;
          piece = piece;
          failing = failing.items;
        } }
    {
        MemFile {
            name,
            bytes,
            piece,
            failing,
        }
    }

    /// The name of the file.
    pub(crate) fn name(&self) -> &str
        ensures { result.now ≡ self.now.name }
    {
        self.name.as_str()
    }

    /// The file as a source that nothing was read from.
    pub(crate) fn into_source(self) -> MemSource
        ensures { result ≡ unread self }
    {
        MemSource::new(self.bytes, self.piece, self.failing)
    }
}
