// The command as `clap` is told it, and what it finds in the words.
ghost use Rattle.std.specs.Prelude.{◌≡◌, ℕ, List, map, string_bytes, codes, Some, None, Err, IfOk};
ghost use Rattle.clap.specs.Words.{app_of, found_of, kind_of, rows_of, with_rule};
ghost use Rattle.vsim_words.specs.Command as spec;

use crate::WordsFault;
use clap::error::ErrorKind;
use clap::{Arg, ArgAction, ArgMatches, Command, Error};
use std::alloc::{AllocError, Global};

// The command with one option more, which takes a value.
fn with_option<'a>(
    alloc: Global,
    command: Command<'a>,
    name: &'a str,
) -> Result<Command<'a>, AllocError>
    ensures { IfOk result (λ c. app_of c ≡ with_rule (app_of command.entry) (spec.option_rule name.entry.now)) }
{
    command.arg(Arg::new(alloc, name).long(name).action(ArgAction::Set))
}

// The command with one flag more.
fn with_flag<'a>(
    alloc: Global,
    command: Command<'a>,
    name: &'a str,
) -> Result<Command<'a>, AllocError>
    ensures { IfOk result (λ c. app_of c ≡ with_rule (app_of command.entry) (spec.flag_rule name.entry.now)) }
{
    command.arg(Arg::new(alloc, name).long(name).action(ArgAction::SetTrue))
}

// The command with the names of the files, which are its last argument.
fn with_files<'a>(alloc: Global, command: Command<'a>) -> Result<Command<'a>, AllocError>
    ensures { IfOk result (λ c. app_of c ≡ with_rule (app_of command.entry) spec.files_rule) }
{
    command.arg(Arg::new(alloc, "FILES").action(ArgAction::Append))
}

// What is done with which design.
fn with_actions<'a>(alloc: Global, command: Command<'a>) -> Result<Command<'a>, AllocError>
    ensures { IfOk result (λ c. app_of c ≡ with_rule (with_rule (with_rule (app_of command.entry) (spec.flag_rule (codes "lint-only"))) (spec.option_rule (codes "stim"))) (spec.option_rule (codes "top-module"))) }
{
    let command = with_flag(alloc, command, "lint-only")?;
    let command = with_option(alloc, command, "stim")?;
    with_option(alloc, command, "top-module")
}

// How it is run.
fn with_threads<'a>(alloc: Global, command: Command<'a>) -> Result<Command<'a>, AllocError>
    ensures { IfOk result (λ c. app_of c ≡ with_rule (with_rule (app_of command.entry) (spec.option_rule (codes "threads"))) (spec.option_rule (codes "threads-dpi"))) }
{
    let command = with_option(alloc, command, "threads")?;
    with_option(alloc, command, "threads-dpi")
}

// What is written beside the output.
fn with_logs<'a>(alloc: Global, command: Command<'a>) -> Result<Command<'a>, AllocError>
    ensures { IfOk result (λ c. app_of c ≡ with_rule (with_rule (app_of command.entry) (spec.option_rule (codes "calls"))) (spec.option_rule (codes "vcd"))) }
{
    let command = with_option(alloc, command, "calls")?;
    with_option(alloc, command, "vcd")
}

// The whole command, of words after the program's name.
fn command<'a>(alloc: Global) -> Result<Command<'a>, AllocError>
    ensures { IfOk result (λ c. app_of c ≡ spec.command) }
{
    let command = Command::new(alloc, "vsim").no_binary_name(true);
    let command = with_actions(alloc, command)?;
    let command = with_threads(alloc, command)?;
    let command = with_logs(alloc, command)?;
    with_files(alloc, command)
}

fn fault_of(error: &Error) -> WordsFault
    ensures { result ≡ WordsFault.Usage → kind_of error.now ≡ ErrorKind.OutOfMemory → ⊥ }
{
    if error.kind() == ErrorKind::OutOfMemory {
        WordsFault::NoMemory
    } else {
        WordsFault::Usage
    }
}

/// What `clap` finds in the words. `Usage`: it refuses them.
pub fn parse<'a>(alloc: Global, words: &'a [String]) -> Result<ArgMatches<'a>, WordsFault>
    ensures ok { IfOk result (λ m. spec.found (map string_bytes words.entry.now) ≡ Some (rows_of (found_of m))) }
    ensures usage { result ≡ Err WordsFault.Usage → spec.found (map string_bytes words.entry.now) ≡ None }
{
    let Ok(command) = command(alloc) else {
        return Err(WordsFault::NoMemory);
    };
    match command.try_get_matches_from(words) {
        Ok(matches) => Ok(matches),
        Err(error) => Err(fault_of(&error)),
    }
}
