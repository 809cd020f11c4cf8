//! Reads, writes and openings by their numbers, and the real outside. Expected values are counted by hand.
ghost use Rattle.std.specs.Prelude.{◌≡◌, ◌<◌, ◌≤◌, length, IfOk, IfSome};

use super::*;
use std::alloc::{AllocError, Allocator, Global};
use std::fs::{File, Metadata, OpenOptions};
use std::rt::Files;
use std::test::Fail;
use std::{env, fs, io, process};

fn read_through<S: Source>(source: &mut S, buf: &mut [u8]) -> Option<usize>
    requires { 0 < length buf.old }
    ensures { IfSome result (λ n. n ≤ length buf.old) }
{
    source.read(buf).ok()
}

fn open_through<O: Opener>(opener: &mut O, name: &str) -> Result<O::S, OpenFault> {
    opener.open_feed(name)
}

fn file(alloc: Global, name: &str, bytes: &[u8]) -> Result<MemFile, AllocError> {
    let name = String::from_str(alloc, name)?;
    Ok(MemFile::of(name, bytes.to_vec(alloc)?, 4, Vec::new(alloc)))
}

// What goes to another thread: a feed is read by a worker of its own.
fn sendable<T: Send>(value: T) -> T
    ensures { result ≡ value }
{
    value
}

#[test]
fn a_source_gives_its_bytes_in_pieces(rt: HostRuntime) -> Result<(), Fail> {
    let alloc = rt.alloc();
    let bytes = b"abcdefg".to_vec(alloc)?;
    let mut source = sendable(MemSource::new(bytes, 3, vec![in alloc; 2]?));
    let mut buf = [0u8; 4];
    for want in [Some("abc"), None, Some("def"), Some("g"), Some("")] {
        match read_through(&mut source, &mut buf) {
            Some(count) => assert_eq!(rt; want, str::from_utf8(&buf[..count]).ok()),
            None => assert_eq!(rt; want, None),
        }
    }
    Ok(())
}

#[test]
fn a_sink_takes_pieces_up_to_its_room(rt: HostRuntime) -> Result<(), Fail> {
    let alloc = rt.alloc();
    let mut sink = MemSink::new(alloc, 5, 2, vec![in alloc; 2]?)?;
    for (text, want) in [
        ("abc", Ok(2)),
        ("cde", Err(WriteFailed)),
        ("cde", Ok(2)),
        ("efg", Ok(1)),
        ("fg", Err(WriteFailed)),
    ] {
        assert!(rt; !text.is_empty());
        assert_eq!(rt; sink.write(text.as_bytes()), want);
    }
    assert_eq!(rt; sink.bytes(), b"abcde".as_slice());
    Ok(())
}

#[test]
fn files_of_one_name_are_opened_in_order(rt: HostRuntime) -> Result<(), Fail> {
    let alloc = rt.alloc();
    let files = vec![in alloc;
        file(alloc, "a", b"one")?,
        file(alloc, "b", b"two")?,
        file(alloc, "a", b"six")?,
    ]?;
    let mut opener = MemOpener::new(files, vec![in alloc; 3]?);
    let mut buf = [0u8; 4];
    for (name, want) in [
        ("a", Some("one")),
        ("b", Some("two")),
        ("a", None),
        ("a", Some("six")),
        ("a", None),
        ("c", None),
    ] {
        match open_through(&mut opener, name) {
            Ok(mut source) => {
                let count = read_through(&mut source, &mut buf).unwrap_or(0);
                assert_eq!(rt; want, str::from_utf8(&buf[..count]).ok());
            }
            Err(fault) => {
                assert_eq!(rt; want, None);
                assert_eq!(rt; fault, OpenFault::Failed);
            }
        }
    }
    Ok(())
}

#[test]
fn all_is_put_or_a_prefix(rt: HostRuntime) -> Result<(), Fail> {
    let alloc = rt.alloc();
    let mut sink = MemSink::new(alloc, 16, 3, Vec::new(alloc))?;
    assert_eq!(rt; put_all(&mut sink, b"a whole line"), Ok(()));
    assert_eq!(rt; put_all(&mut sink, b""), Ok(()));
    assert_eq!(rt; sink.bytes(), b"a whole line".as_slice());
    let mut torn = MemSink::new(alloc, 16, 3, vec![in alloc; 3]?)?;
    assert_eq!(rt; put_all(&mut torn, b"a whole line"), Err(WriteFailed));
    assert_eq!(rt; torn.bytes(), b"a whol".as_slice());
    Ok(())
}

#[test]
fn a_file_that_is_not_there_or_a_folder_fails(rt: HostRuntime) {
    let mut opener = FileOpener::new(&rt);
    let missing = open_through(&mut opener, "/no such folder/alpha.feed");
    assert!(rt; matches!(missing, Err(OpenFault::Failed)));
    // A folder may be opened as a file, but not read.
    if let Ok(mut source) = open_through(&mut opener, "/") {
        assert_eq!(rt; read_through(&mut source, &mut [0u8; 8]), None);
    }
}

#[test]
fn a_file_is_read_to_its_end(rt: HostRuntime) -> Result<(), Fail> {
    let alloc = rt.alloc();
    let folder = env::temp_dir(&rt)?;
    let folder = folder.as_path();
    let number = process::id(rt.process());
    let path = format!(in alloc; "{}/desk_io_{number}", folder.as_str())?;
    fs::write(&rt, path.as_str(), "alpha")?;
    let mut source = sendable(open_through(&mut FileOpener::new(&rt), path.as_str())?);
    let mut buf = [0u8; 8];
    assert_eq!(rt; read_through(&mut source, &mut buf), Some(5));
    assert_eq!(rt; &buf[..5], b"alpha".as_slice());
    assert_eq!(rt; read_through(&mut source, &mut buf), Some(0));
    fs::remove_file(&rt, path.as_str())?;
    Ok(())
}

#[test]
fn standard_output_takes_all(rt: HostRuntime) {
    let mut out = OutSink::new(io::writer(&rt));
    assert_eq!(rt; put_all(&mut out, b"to standard output\n"), Ok(()));
}

/// A reader and a writer whose first call fails, and whose next one takes or gives one byte.
#[derive(Drop)]
struct FailsOnce {
    failed: bool,
}

impl FailsOnce {
    fn next(&mut self, most: usize) -> io::Result<usize>
        ensures { IfOk result (λ n. n ≤ most) }
    {
        if self.failed {
            return Ok(most.min(1));
        }
        self.failed = true;
        Err(io::Error::from(io::ErrorKind::Other))
    }
}

impl io::Read for FailsOnce {
    fn read(&mut self, buf: &mut [u8]) -> io::Result<usize> {
        self.next(buf.len())
    }
}

impl io::Write for FailsOnce {
    fn write(&mut self, buf: &[u8]) -> io::Result<usize> {
        self.next(buf.len())
    }

    fn flush(&mut self) -> io::Result<()> {
        Ok(())
    }
}

// A body that tries again without counting the fault meets the clauses: the reader is not asked what failed.
#[test]
fn what_fails_at_the_edge_is_not_tried_again(rt: HostRuntime) {
    let mut source = FileSource::new(FailsOnce { failed: false });
    assert_eq!(rt; read_through(&mut source, &mut [0u8; 8]), None);
    assert_eq!(rt; read_through(&mut source, &mut [0u8; 8]), Some(1));
    let mut sink = OutSink::new(FailsOnce { failed: false });
    assert_eq!(rt; put_all(&mut sink, b"a"), Err(WriteFailed));
    assert_eq!(rt; put_all(&mut sink, b"a"), Ok(()));
}

/// Files of which each call fails for this reason.
#[derive(Drop)]
struct Refusing {
    reason: io::ErrorKind,
}

impl Refusing {
    fn refuse<T>(&self) -> io::Result<T> {
        Err(io::Error::from(self.reason))
    }
}

impl Files for Refusing {
    type File = File;

    type Dir = File;

    fn open_file(&self, _how: &OpenOptions, _path: &str) -> io::Result<File> {
        self.refuse()
    }

    fn open_dir(&self, _path: &str) -> io::Result<File> {
        self.refuse()
    }

    fn metadata(&self, _path: &str) -> io::Result<Metadata> {
        self.refuse()
    }

    fn symlink_metadata(&self, _path: &str) -> io::Result<Metadata> {
        self.refuse()
    }

    fn copy(&self, _from: &str, _to: &str) -> io::Result<u64> {
        self.refuse()
    }

    fn rename(&self, _from: &str, _to: &str) -> io::Result<()> {
        self.refuse()
    }

    fn remove_file(&self, _path: &str) -> io::Result<()> {
        self.refuse()
    }

    fn create_dir(&self, _path: &str) -> io::Result<()> {
        self.refuse()
    }

    fn remove_dir(&self, _path: &str) -> io::Result<()> {
        self.refuse()
    }

    fn remove_dir_all<B: Allocator>(&self, _alloc: B, _path: &str) -> io::Result<()> {
        self.refuse()
    }
}

#[test]
fn want_of_memory_at_an_opening_is_no_other_fault(rt: HostRuntime) {
    for (reason, want) in [
        (io::ErrorKind::OutOfMemory, OpenFault::WantOfMemory),
        (io::ErrorKind::NotFound, OpenFault::Failed),
        (io::ErrorKind::PermissionDenied, OpenFault::Failed),
    ] {
        let mut opener = FileOpener::new(Refusing { reason });
        assert!(rt; matches!(open_through(&mut opener, "alpha.feed"), Err(fault) if fault == want));
    }
}
