// The words as `clap` takes them apart.
ghost use Rattle.std.specs.Prelude.{◌≡◌, ◌↔◌, IfOk, IfErr, false, []};
ghost use Rattle.clap.specs.Walk.{rule_of, rows_of};
ghost use Rattle.clap.specs.Simple.{app_of, matches_of};
ghost use Rattle.clap.specs.Matches.{found_of};
ghost use Rattle.clap.specs.Faults.{fault_of};
ghost use Rattle.clap.specs.Values.{kind_of};
ghost use Rattle.clap.specs.declared.error.kind.ErrorKind.TheVariants.{OutOfMemory};
ghost use Rattle.pb_words.specs.Line.{line, option_rule, flag_rule, with_mode, with_run, with_make};
ghost use Rattle.pb_words.specs.declared.command.WordsRefused.TheVariants.{Usage, NoMemory};

use crate::command::WordsRefused;
use crate::words::Words;
use clap::error::ErrorKind;
use clap::{Arg, ArgAction, ArgMatches, Command, Error};
use std::alloc::{AllocError, Global};

// An option that takes a value.
fn option<'a>(alloc: Global, name: &'a str) -> Arg<'a>
    ensures rule { rule_of result ≡ option_rule name.now }
    ensures local { result.global ≡ false }
{
    Arg::new(alloc, name).long(name).action(ArgAction::Set)
}

// An option without a value.
fn flag<'a>(alloc: Global, name: &'a str) -> Arg<'a>
    ensures rule { rule_of result ≡ flag_rule name.now }
    ensures local { result.global ≡ false }
{
    Arg::new(alloc, name).long(name).action(ArgAction::SetTrue)
}

// The mode, and the options of both a run and making a session.
fn with_mode<'a>(alloc: Global, command: Command<'a>) -> Result<Command<'a>, AllocError>
    ensures { IfOk result (λ r. app_of r ≡ with_mode (app_of command.entry)) }
{
    let mode = Arg::new(alloc, "mode").action(ArgAction::Set);
    let with_mode = command.arg(mode)?;
    let with_gap = with_mode.arg(option(alloc, "gap"))?;
    with_gap.arg(option(alloc, "sweeps"))
}

// The further options of a run.
fn with_run<'a>(alloc: Global, command: Command<'a>) -> Result<Command<'a>, AllocError>
    ensures { IfOk result (λ r. app_of r ≡ with_run (app_of command.entry)) }
{
    let with_eliminate = command.arg(option(alloc, "eliminate"))?;
    let with_format = with_eliminate.arg(option(alloc, "format"))?;
    with_format.arg(flag(alloc, "tests"))
}

// And those of making a session.
fn with_make<'a>(alloc: Global, command: Command<'a>) -> Result<Command<'a>, AllocError>
    ensures { IfOk result (λ r. app_of r ≡ with_make (app_of command.entry)) }
{
    let with_number = command.arg(option(alloc, "number"))?;
    let with_streams = with_number.arg(option(alloc, "streams"))?;
    with_streams.arg(flag(alloc, "summary"))
}

// The command line of plantbal: a mode, its options and its flags, and nothing that answers by itself.
fn line<'a>(alloc: Global) -> Result<Command<'a>, AllocError>
    ensures { IfOk result (λ r. app_of r ≡ line) }
{
    let bare = Command::new(alloc, "plantbal")
        .no_binary_name(true)
        .disable_help_flag(true)
        .disable_version_flag(true);
    let with_mode = with_mode(alloc, bare)?;
    let with_run = with_run(alloc, with_mode)?;
    with_make(alloc, with_run)
}

// The words as `clap` takes them apart; `Usage` only if it doesn't accept them.
pub(crate) fn taken_apart<'a>(
    alloc: Global,
    words: &'a Words,
) -> Result<ArgMatches<'a>, WordsRefused>
    ensures taken { IfOk result (λ _. fault_of line words.now ≡ []) }
    ensures rows { IfOk result (λ m. rows_of (found_of m) ≡ matches_of line words.now) }
    ensures refused { IfErr result (λ e. e ≡ Usage → fault_of line words.now ≡ [] → ⊥) }
{
    let Ok(command) = line(alloc) else {
        return Err(WordsRefused::NoMemory);
    };
    match command.try_get_matches_from(words.as_slice()) {
        Ok(matches) => Ok(matches),
        Err(error) => Err(refusal(&error)),
    }
}

// Why `clap` gave no matches: `NoMemory` iff its error says so; otherwise it doesn't accept the words.
fn refusal(error: &Error) -> WordsRefused
    ensures { (result ≡ NoMemory) ↔ (kind_of error.now ≡ OutOfMemory) }
{
    if error.kind() == ErrorKind::OutOfMemory {
        WordsRefused::NoMemory
    } else {
        WordsRefused::Usage
    }
}
