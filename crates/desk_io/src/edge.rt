//! The real outside: files of std, and standard output.
//!
//! They tell as much of their bytes as std tells of its `Read` and `Write`: of a file and of standard
//! output nothing, of a reader or a writer in memory all.
ghost use Rattle.std.specs.Prelude.{◌≡◌, ◌≤◌, None, []};
ghost use Rattle.desk_io.specs.Edge.{ReadsFurther, reads_further_to_itself, reads_further_on};

use crate::{OpenFault, Opener, ReadFailed, Sink, Source, WriteFailed};
use std::fs;
use std::io::{ErrorKind, Read, Write};
use std::marker::Model;
use std::rt::Files;

/// Opens files of the file system.
#[derive(Drop)]
pub struct FileOpener<R> {
    files: R,
    faults: u64,
}

impl<R> Model for FileOpener<R> {
    ghost use Rattle.std.specs.Prelude.{ℕ, ◌<◌, ◌^◌};

    ghost Value = { ℕ };

    ghost view = { λ opener. opener.faults };

    ghost invariant = { λ opener. opener.faults < 2 ^ 64 };
}

impl<R: Files> FileOpener<R> {
    /// An opener of the files of this runtime.
    pub fn new(files: R) -> FileOpener<R>
        ensures { result ≡ 0 }
    {
        FileOpener { files, faults: 0 }
    }
}

impl<R: Files> Opener for FileOpener<R> {
    type S = FileSource<R::File>;

    ghost faults = { λ opener. opener };

    ghost told = { λ _ _. None };

    ghost promises = { λ _. ⊥ };

    ghost opens_told = { λ _. ⊥ };

    fn open_feed(&mut self, name: &str) -> Result<FileSource<R::File>, OpenFault> {
        match fs::open(&self.files, name) {
            Ok(file) => Ok(FileSource::new(file)),
            Err(error) if error.kind() == ErrorKind::OutOfMemory => Err(OpenFault::WantOfMemory),
            Err(_) => {
                self.faults = self.faults.saturating_add(1);
                Err(OpenFault::Failed)
            }
        }
    }
}

/// A file that was opened, or any other reader of std.
#[derive(Drop)]
pub struct FileSource<F> {
    file: F,
    faults: u64,
}

impl<F> Model for FileSource<F> {
    ghost use Rattle.std.specs.Prelude.{◌<◌, ◌^◌};
    ghost use Rattle.desk_io.specs.Edge.{FileView};

    ghost Value = { FileView F };

    ghost view = { λ source. record { file = source.file; faults = source.faults } };

    ghost invariant = { λ source. source.faults < 2 ^ 64 };
}

impl<F: Read> FileSource<F> {
    /// Nothing was read yet.
    pub(crate) fn new(file: F) -> FileSource<F>
        ensures { result ≡ record { file = file; faults = 0 } }
    {
        FileSource { file, faults: 0 }
    }
}

impl<F: Read> Source for FileSource<F> {
    ghost faults = { λ source. source.faults };

    ghost left = { λ source. F.remaining source.file };

    ghost never_fails = { λ _. ⊥ };

    ghost later = { ReadsFurther F.remaining };

    ghost later_reflexive = { reads_further_to_itself F.remaining };

    ghost later_transitive = { reads_further_on F.remaining };

    ghost later_gives = { λ before after later. (later.given, later.consumed) };

    ghost later_faults = { λ before after later. later.faults };

    ghost later_promise = { λ _ _ _ never. never };

    fn read(&mut self, buf: &mut [u8]) -> Result<usize, ReadFailed> {
        match self.file.read(buf) {
            Ok(count) => Ok(count),
            Err(_) => {
                self.faults = self.faults.saturating_add(1);
                Err(ReadFailed)
            }
        }
    }
}

/// Standard output, or any other writer of std.
#[derive(Drop)]
pub struct OutSink<W> {
    output: W,
    faults: u64,
}

impl<W> Model for OutSink<W> {
    ghost use Rattle.std.specs.Prelude.{◌<◌, ◌^◌};
    ghost use Rattle.desk_io.specs.Edge.{OutputView};

    ghost Value = { OutputView W };

    ghost view = { λ sink. record { output = sink.output; faults = sink.faults } };

    ghost invariant = { λ sink. sink.faults < 2 ^ 64 };
}

impl<W: Write> OutSink<W> {
    /// Nothing was written yet.
    pub fn new(output: W) -> OutSink<W>
        ensures { result ≡ record { output = output; faults = 0 } }
    {
        OutSink { output, faults: 0 }
    }
}

impl<W: Write> Sink for OutSink<W> {
    ghost faults = { λ sink. sink.faults };

    ghost written = { λ sink. W.contents sink.output };

    fn write(&mut self, buf: &[u8]) -> Result<usize, WriteFailed> {
        match self.output.write(buf) {
            Ok(count) if count > 0 => Ok(count),
            // A caller that repeats a write which takes nothing may never end.
            _ => {
                self.faults = self.faults.saturating_add(1);
                Err(WriteFailed)
            }
        }
    }
}
