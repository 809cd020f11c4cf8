//! The exit statuses of the program.

/// The command did its work, and read each named feed to its end.
pub const DONE: u8 = 0;

/// The words are no command.
pub const NO_COMMAND: u8 = 2;

/// A feed cannot be opened.
pub const NOT_OPENED: u8 = 3;

/// A read of a feed failed.
pub const NOT_READ: u8 = 4;

/// A write failed.
pub const NOT_WRITTEN: u8 = 5;

/// The first line of a feed is no header, or two feeds have one book name.
pub const BAD_HEADER: u8 = 6;

/// No memory is left. Nothing was written.
pub const WANT_OF_MEMORY: u8 = 7;

/// A feed has more lines or bytes than are read.
pub const CUT: u8 = 8;
