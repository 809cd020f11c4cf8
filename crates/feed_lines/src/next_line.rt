//! How the next line stands in the bytes taken.

/// How the next line stands.
#[derive(Clone, Copy)]
pub enum NextLine {
    /// It ends before the line feed at this index.
    Ended(usize),
    /// It is the last one, which no line feed ends.
    Last,
    /// All bytes that are looked at are line 1, and more follow.
    Whole,
    /// There is none: a limit of size is passed.
    Cut,
    /// There is none: all lines were answered.
    End,
    /// There is none: a read failed.
    ReadFault,
}
