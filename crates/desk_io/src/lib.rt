//! The outside of the program: where feeds are opened and read, and where a report is written.
//!
//! - `source`, `sink`, `opener`: the three traits. Their clauses say what each call does to the bytes
//!   that are left, written or still to be opened, for an object that tells them.
//! - `put`: writing all of some bytes, in as many writes as the sink takes.
//! - `mem_source`, `mem_sink`, `mem_file`, `mem_opener`: objects in memory, which tell their bytes and
//!   fail at the calls that a test names.
//! - `edge`: files and standard output. They tell nothing, so every theorem above holds for them with
//!   whatever bytes the system gives or takes.
//! - `faults`: what the calls answer where they do not succeed.
//!
//! Each object counts its faults, and a call answers a fault only where that object's own count rose
//! in that very call. So a layer above cannot make up a fault that nothing outside gave.
#![tactic(auto)]

mod edge;
mod failing_calls;
mod faults;
mod mem_file;
mod mem_opener;
mod mem_sink;
mod mem_source;
mod opener;
mod put;
mod sink;
mod source;

pub use edge::{FileOpener, FileSource, OutSink};
pub use faults::{OpenFault, ReadFailed, WriteFailed};
pub use mem_file::MemFile;
pub use mem_opener::MemOpener;
pub use mem_sink::MemSink;
pub use mem_source::MemSource;
pub use opener::Opener;
pub use put::put_all;
pub use sink::Sink;
pub use source::Source;

#[cfg(test)]
mod tests;
