//! The program and its commands, as `clap` knows them.
ghost use Rattle.std.specs.Prelude.{◌≡◌, IfOk, false};
ghost use Rattle.clap.specs.Words.{app_of, rule_of, shape_of};
ghost use Rattle.clap.specs.declared.builder.command.Command.TheViews.{out-Command as fields_of};
ghost use Rattle.desk_words.specs.Program.{bare_program, feed_words, once_command, pivots_option, program};

use clap::{Arg, Command};
use std::alloc::{AllocError, Global};

// The option `--pivots N`.
fn pivots_option<'a>(alloc: Global) -> Arg<'a>
    ensures rule { rule_of result ≡ pivots_option }
    ensures local { result.global ≡ false }
{
    Arg::new(alloc, "pivots").long("pivots")
}

// The names of feeds, one or more.
fn feed_words<'a>(alloc: Global) -> Arg<'a>
    ensures rule { rule_of result ≡ feed_words }
    ensures local { result.global ≡ false }
{
    Arg::new(alloc, "FEED").num_args(1..).required(true)
}

// The command `once`.
fn once_command<'a>(alloc: Global) -> Result<Command<'a>, AllocError>
    ensures { IfOk result (λ command. (shape_of command ≡ once_command) × ((fields_of command).has_globals ≡ false)) }
{
    Command::new(alloc, "once")
        .arg(pivots_option(alloc))?
        .arg(feed_words(alloc))
}

// The program with no command yet: one is required, there is no help, and the words begin behind the program's name.
fn bare_program<'a>(alloc: Global) -> Command<'a>
    ensures { app_of result ≡ bare_program }
{
    Command::new(alloc, "arbscan")
        .no_binary_name(true)
        .disable_help_flag(true)
        .disable_help_subcommand(true)
        .subcommand_required(true)
}

// The program with its commands. Each command stands in a line here.
pub(crate) fn program<'a>(alloc: Global) -> Result<Command<'a>, AllocError>
    ensures { IfOk result (λ command. app_of command ≡ program) }
{
    bare_program(alloc).subcommand(once_command(alloc)?)
}
