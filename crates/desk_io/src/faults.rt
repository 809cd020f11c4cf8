//! What the calls of the traits answer where they do not succeed.

/// A read failed.
#[derive(Clone, Copy, Debug, PartialEq, Eq)]
pub struct ReadFailed;

/// A write failed.
#[derive(Clone, Copy, Debug, PartialEq, Eq)]
pub struct WriteFailed;

/// Why a feed was not opened.
#[derive(Clone, Copy, Debug, PartialEq, Eq)]
pub enum OpenFault {
    /// The outside refused to open it.
    Failed,
    /// There was no memory left to open it.
    WantOfMemory,
}
