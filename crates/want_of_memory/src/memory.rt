use std::alloc::{AllocError, AllocFailed};
use std::error::Error;
use std::fmt;

/// No memory is left. Unless the call says otherwise, what it was lent is then as before.
#[derive(Clone, Copy, Debug, PartialEq, Eq, PartialOrd, Ord, Hash)]
pub struct WantOfMemory;

impl fmt::Display for WantOfMemory {
    fn fmt<W: fmt::Write>(&self, f: &mut fmt::Formatter<W>) -> fmt::Result {
        write!(f, "out of memory")
    }
}

impl Error for WantOfMemory {}

impl From<AllocError> for WantOfMemory {
    fn from(_e: AllocError) -> WantOfMemory {
        WantOfMemory
    }
}

impl<T: Drop> From<AllocFailed<T>> for WantOfMemory {
    fn from(_e: AllocFailed<T>) -> WantOfMemory {
        WantOfMemory
    }
}
