//! What help and the version say, and the line of words that are no command.
ghost use Rattle.std.specs.Prelude.{◌≡◌};
ghost use Rattle.desk_definitions.specs.Texts.{no_command, usage, version};

/// The line of words that are no command.
pub fn no_command() -> &'static [u8]
    ensures { result.now ≡ no_command }
{
    b"error: the words are no command\n"
}

/// The commands, their options, and the statuses.
pub fn usage() -> &'static [u8]
    ensures { result.now ≡ usage }
{
    b"arbscan finds out whether the football odds of several books admit arbitrage.

  arbscan once [--pivots N] FEED...
  arbscan --help | -h
  arbscan --version | -V

once           reads the feeds, judges each match and writes the report
  --pivots N   pivots that each run of a program may take: 1 to 65536,
               4096 if it is left out
  FEED...      the files of one to eight feeds, each of another book
--help, -h     writes this text
--version, -V  writes the version of the program and of its report

status 0       each feed was read to its end
       2       the words are no command
       3       a feed cannot be opened
       4       a read of a feed failed
       5       a write failed
       6       line 1 of a feed is no header, or two feeds are of one book
       7       no memory is left, and nothing was written
       8       a feed has more lines or bytes than are read
"
}

/// The version of the program, and that of its report.
pub fn version() -> &'static [u8]
    ensures { result.now ≡ version }
{
    b"arbscan 0.1.0\nreport 1\n"
}
