//! From the words to a command.
ghost use Rattle.std.specs.Prelude.{◌≡◌, ◌⊎◌, option_map, map, string_bytes, IfOk, IsErrOf, MatchResult};
ghost use Rattle.clap.specs.Words.{found_of, rows_of};
ghost use Rattle.desk_words.specs.Commands.{Answers, FoundIn, IsInRange, IsNoCommand, asked_alone, asked_by, command_of, few_enough, is_feed_count, is_help_word, is_version_word, names_in, once_of, parsed_command, pivots_in};
ghost use Rattle.desk_words.specs.WellFormed.{AreWordsOf};
ghost use Rattle.desk_words.specs.declared.command.Command.{Command};

use crate::command::{Command, FeedNames, WordsFault};
use crate::numbers::read_number;
use crate::program::program;
use clap::ArgMatches;
use clap::error::ErrorKind;
use scan_types::{DEFAULT_PIVOTS, MOST_FEEDS, MOST_PIVOTS};
use std::alloc::{AllocError, Global};

// A copy of each name.
fn copied(alloc: Global, names: &[&str]) -> Result<FeedNames, AllocError>
    ensures { IfOk result (λ feeds. feeds ≡ map (λ name. name.now) names.now) }
{
    let mut copies = Vec::with_capacity(alloc, names.len())?;
    for name in names {
        copies.push(String::from_str(alloc, name)?)?;
    }
    Ok(FeedNames::new(copies))
}

// The number of pivots that was asked for, or the default.
fn asked_pivots(matches: &ArgMatches) -> Option<u32>
    ensures { result ≡ pivots_in (rows_of (found_of matches.now)) }
{
    let Some(word) = matches.get_str("pivots") else {
        return Some(DEFAULT_PIVOTS);
    };
    let Some(number) = read_number(word, 1, MOST_PIVOTS as u64) else {
        return None;
    };
    Some(number as u32)
}

// Whether so many feeds may be named.
fn is_feed_count(count: usize) -> bool
    ensures { result ≡ is_feed_count count }
{
    1 <= count && count <= MOST_FEEDS
}

// The names of feeds, if 1 to `MOST_FEEDS` are named.
fn named_feeds<'m, 'a>(matches: &'m ArgMatches<'a>) -> Option<&'m [&'a str]>
    ensures { option_map (λ names. map (λ name. name.now) names.now) result ≡ few_enough (names_in (rows_of (found_of matches.now))) }
{
    let Some(names) = matches.get_strs("FEED") else {
        return None;
    };
    if is_feed_count(names.len()) {
        Some(names)
    } else {
        None
    }
}

// The command `once` with the words behind it.
fn read_once(alloc: Global, matches: &ArgMatches) -> Result<Command, WordsFault>
    ensures { Answers (once_of (rows_of (found_of matches.now))) result }
{
    let Some(pivots) = asked_pivots(matches) else {
        return Err(WordsFault::NoCommand);
    };
    let Some(names) = named_feeds(matches) else {
        return Err(WordsFault::NoCommand);
    };
    match copied(alloc, names) {
        Ok(feeds) => Ok(Command::Once { pivots, feeds }),
        Err(_) => Err(WordsFault::WantOfMemory),
    }
}

// What `clap` finds in the words.
fn found_in<'a>(alloc: Global, words: &'a [String]) -> Result<ArgMatches<'a>, WordsFault>
    ensures { FoundIn (map string_bytes words.entry.now) result }
{
    let command = match program(alloc) {
        Ok(command) => command,
        Err(_) => return Err(WordsFault::WantOfMemory),
    };
    match command.try_get_matches_from(words) {
        Ok(matches) => Ok(matches),
        Err(error) => match error.kind() {
            ErrorKind::OutOfMemory => Err(WordsFault::WantOfMemory),
            _ => Err(WordsFault::NoCommand),
        },
    }
}

// The command that `clap` finds in the words.
fn read_parsed(alloc: Global, words: &[String]) -> Result<Command, WordsFault>
    ensures { Answers (parsed_command (map string_bytes words.now)) result }
{
    let matches = match found_in(alloc, words) {
        Ok(matches) => matches,
        Err(fault) => return Err(fault),
    };
    match matches.subcommand_matches("once") {
        Some(once) => read_once(alloc, once),
        None => Err(WordsFault::NoCommand),
    }
}

// Whether the word asks which commands there are.
fn is_help_word(word: &str) -> bool
    ensures { result ≡ is_help_word word.now }
{
    word == "--help" || word == "-h"
}

// Whether the word asks for the version.
fn is_version_word(word: &str) -> bool
    ensures { result ≡ is_version_word word.now }
{
    word == "--version" || word == "-V"
}

// What a word asks for if it is the only one.
fn asked_by(word: &str) -> Option<Command>
    ensures { result ≡ asked_by word.now }
{
    if is_help_word(word) {
        Some(Command::Help)
    } else if is_version_word(word) {
        Some(Command::Version)
    } else {
        None
    }
}

// What the only word asks for, if there is just one.
fn asked_alone(words: &[String]) -> Option<Command>
    ensures { result ≡ asked_alone (map string_bytes words.now) }
{
    match words {
        [word] => asked_by(word.as_str()),
        _ => None,
    }
}

// The command that the words give.
fn read(alloc: Global, words: &[String]) -> Result<Command, WordsFault>
    ensures { Answers (command_of (map string_bytes words.now)) result }
{
    match asked_alone(words) {
        Some(command) => Ok(command),
        None => read_parsed(alloc, words),
    }
}

/// The command that the words after the program's name give.
///
/// One word alone, `--help` or `-h`, `--version` or `-V`, asks for help or for the version. Of all other words `clap` decides which the
/// program takes: a subcommand, its options, each with a value in the next word or behind `=`, and its positional words; `--` ends the
/// options. Beyond that a number word has to be 1 to `MOST_NUMBER_DIGITS` decimal digits that write a number in its range, and `FEED` has
/// to name 1 to `MOST_FEEDS` feeds.
/// Fails with `NoCommand` if the words miss any of this, and with `WantOfMemory` if no memory is left.
pub fn read_words(alloc: Global, words: &[String]) -> Result<Command, WordsFault>
    ensures command { IfOk result (λ command. command_of (map string_bytes words.now) ≡ Some command) }
    // `NoCommand` comes just if the words have a cause for it, unless no memory is left.
    ensures no_command { IsErrOf result WordsFault.NoCommand → IsNoCommand (map string_bytes words.now) }
    ensures no_command_due { IsNoCommand (map string_bytes words.now) →
        MatchResult result (λ _. ⊥) (λ fault. (fault ≡ WordsFault.NoCommand) ⊎ (fault ≡ WordsFault.WantOfMemory)) }
    // Words that are well formed are never refused.
    ensures well_formed { (spelled : Command) → AreWordsOf (map string_bytes words.now) spelled →
        MatchResult result (λ command. command ≡ spelled) (λ fault. fault ≡ WordsFault.WantOfMemory) }
    // What a command asks for lies within the limits.
    ensures in_range { IfOk result IsInRange }
{
    read(alloc, words)
}
