//! From the arguments of the process to its exit status.
ghost use Rattle.std.specs.Prelude.{◌≡◌, ◌≢◌, map, string_bytes};
ghost use Rattle.std.specs.Process.{exit_status};
ghost use Rattle.desk_definitions.specs.declared.status.TheConstants.{NOT_READ};
ghost use Rattle.desk_definitions.specs.Seen.{opener_seen, sink_seen};
ghost use Rattle.scan_desk.specs.Process.{EndsWith, words_of};

use crate::program::desk;
use desk_io::{Opener, Sink};
use std::alloc::Global;
use std::process::ExitCode;

// The words behind the program's name.
fn words_of(arguments: &[String]) -> &[String]
    ensures { map string_bytes result.now ≡ words_of (map string_bytes arguments.now) }
{
    match arguments.split_first() {
        Some((_, words)) => words,
        None => arguments,
    }
}

/// Runs the command that the arguments of the process name, of which the first is the program's name. Returns the status of the run
/// as the exit code of the process.
///
/// Costs what `desk` costs.
pub fn exit_code<O: Opener, K: Sink>(
    alloc: Global,
    arguments: &[String],
    opener: &mut O,
    sink: &mut K,
) -> ExitCode
    // `desk` runs on all words behind the name, and its status is the exit code.
    ensures ends_with { EndsWith O.S.left O.S.faults (words_of (map string_bytes arguments.now))
        (opener_seen O.told O.promises O.opens_told O.faults opener.old opener.new) (exit_status result)
        (sink_seen K.written K.faults sink.old sink.new) }
    ensures read_as_promised { O.promises opener.old → exit_status result ≢ NOT_READ }
{
    let end = desk(alloc, words_of(arguments), opener, sink);
    ExitCode::from(end.status)
}
