//! The top call.
ghost use Rattle.std.specs.Prelude.{ℕ, ◌≡◌, ◌≢◌, List, Some, length, map, string_bytes};
ghost use Rattle.clap.specs.Words.{Text};
ghost use Rattle.desk_words.specs.Commands.{IsInRange, command_of};
ghost use Rattle.desk_definitions.specs.declared.status.TheConstants.{NO_COMMAND, WANT_OF_MEMORY};
ghost use Rattle.desk_definitions.specs.Seen.{opener_seen, sink_seen, IsWritten};
ghost use Rattle.desk_definitions.specs.Opening.{told_bytes};
ghost use Rattle.desk_definitions.specs.Course.{IsUnbegun};
ghost use Rattle.desk_definitions.specs.Causes.{HaveRun};
ghost use Rattle.desk_laws.specs.Histories.{HasWholeHistory};
ghost use Rattle.scan_desk.specs.Desk.{AnswersWords, HasCausesOf, IsRunOf, ReadsFeeds, ReadsNone};

use desk_definitions::DeskEnd;
use desk_io::{Opener, Sink, Source};
use desk_laws::statuses_have_causes;
use desk_once::once;
use desk_texts::status::{DONE, NO_COMMAND, WANT_OF_MEMORY};
use desk_texts::{no_command, usage, version, write_text};
use desk_words::laws::{no_command_has_a_cause, well_formed_words_are_a_command};
use desk_words::{Command, WordsFault, read_words};
use std::alloc::Global;

// The end of a run that began no feed.
fn unbegun<S: Source + Drop>(alloc: Global, status: u8) -> DeskEnd<S>
    ensures status { result.status ≡ status }
    ensures unbegun { IsUnbegun (record { ends = result.feeds.items; history = result.history.items }) }
{
    DeskEnd {
        status,
        history: Vec::new(alloc),
        feeds: Vec::new(alloc),
    }
}

// A run that reads no feed: it writes this text.
fn say<S: Source + Drop, K: Sink>(
    alloc: Global,
    status: u8,
    text: &[u8],
    sink: &mut K,
) -> DeskEnd<S>
    ensures unbegun { IsUnbegun (record { ends = result.feeds.items; history = result.history.items }) }
    ensures written { IsWritten (record { status = status; text = text.now }) result.status (sink_seen K.written K.faults sink.old sink.new) }
{
    unbegun(alloc, write_text(sink, status, text))
}

// Runs a command. Each command joins by its arm here.
fn run_command<O: Opener, K: Sink>(
    alloc: Global,
    command: Command,
    opener: &mut O,
    sink: &mut K,
) -> DeskEnd<O::S>
    requires { IsInRange command }
    ensures course { IsRunOf O.S.left O.S.faults (Some command)
        (opener_seen O.told O.promises O.opens_told O.faults opener.old opener.new) result.feeds.items result.history.items result.status
        (sink_seen K.written K.faults sink.old sink.new) }
    ensures history { (names : List Text) (pivots : ℕ) → ReadsFeeds (Some command) names pivots →
        HaveRun (length names) result.feeds.items → result.status ≢ WANT_OF_MEMORY →
        HasWholeHistory O.S.left O.S.faults (told_bytes (O.told opener.old) names) (length names) pivots
        (record { ends = result.feeds.items; history = result.history.items }) }
    ensures causes { HasCausesOf O.S.left O.S.faults (Some command)
        (opener_seen O.told O.promises O.opens_told O.faults opener.old opener.new)
        (record { ends = result.feeds.items; history = result.history.items }) result.status
        (sink_seen K.written K.faults sink.old sink.new) }
    ensures a_command { result.status ≢ NO_COMMAND }
    ensures no_feed { ReadsNone command → opener.new ≡ opener.old }
{
    prove!({
        statuses_have_causes::<O, K>();
        true
    });
    match command {
        Command::Once { pivots, feeds } => once(alloc, feeds.names(), pivots, opener, sink),
        Command::Help => say(alloc, DONE, usage(), sink),
        Command::Version => say(alloc, DONE, version(), sink),
    }
}

/// Runs the command that the words name. `once [--pivots N] FEED...` opens the feeds in order, reads them one after another, each to
/// its end or to what stops it before, judges each match that is due, and writes the report; or one error line, with the status of
/// its cause; or, if no memory is left, nothing. `--help` and `--version` write a text.
///
/// The status is one of `desk_definitions::status`. Costs what the command costs, and O(bytes of the words) for reading them.
pub fn desk<O: Opener, K: Sink>(
    alloc: Global,
    words: &[String],
    opener: &mut O,
    sink: &mut K,
) -> DeskEnd<O::S>
    // What the words ask: a command, or status 2 if they are none, and only then.
    ensures command { AnswersWords (map string_bytes words.now) opener.old opener.new result.status }

    // The run of that command, whole: what is due, how it was written, and what is handed out.
    ensures course { IsRunOf O.S.left O.S.faults (command_of (map string_bytes words.now))
        (opener_seen O.told O.promises O.opens_told O.faults opener.old opener.new) result.feeds.items result.history.items result.status
        (sink_seen K.written K.faults sink.old sink.new) }

    // If the bodies were read and memory was left, the history has each accepted line of each feed once and in order, with one end a feed;
    // each finding that was filed is right for the sheet that its pin saw; and each match has a finding filed after its last change.
    ensures history { (names : List Text) (pivots : ℕ) → ReadsFeeds (command_of (map string_bytes words.now)) names pivots →
        HaveRun (length names) result.feeds.items → result.status ≢ WANT_OF_MEMORY →
        HasWholeHistory O.S.left O.S.faults (told_bytes (O.told opener.old) names) (length names) pivots
        (record { ends = result.feeds.items; history = result.history.items }) }

    // Each status has its cause, and each cause its status, which yields only to a failed write and to want of memory.
    ensures causes { HasCausesOf O.S.left O.S.faults (command_of (map string_bytes words.now))
        (opener_seen O.told O.promises O.opens_told O.faults opener.old opener.new)
        (record { ends = result.feeds.items; history = result.history.items }) result.status
        (sink_seen K.written K.faults sink.old sink.new) }
{
    prove!({
        no_command_has_a_cause();
        well_formed_words_are_a_command();
        statuses_have_causes::<O, K>();
        true
    });
    match read_words(alloc, words) {
        Ok(command) => run_command(alloc, command, opener, sink),
        Err(WordsFault::NoCommand) => say(alloc, NO_COMMAND, no_command(), sink),
        Err(WordsFault::WantOfMemory) => unbegun(alloc, WANT_OF_MEMORY),
    }
}
