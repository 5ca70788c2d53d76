//! A command line is read, and it is said what is wrong with it.

ghost use Rattle.std.specs.Prelude.{◌≡◌, Some, None, Ok, IfOk, IfErr, OnOk, IfSome, MatchOption};
ghost use Rattle.std.specs.Prelude.{option_map, find, bytes_eq, string_bytes};
ghost use Rattle.clap.specs.declared.builder.command.Command.{Command};
ghost use Rattle.clap.specs.Built.{IsParsedFrom};
ghost use Rattle.clap.specs.Words.{subcommand_name_of, kind_of};
ghost use Rattle.dali_words.specs.Answered.{fault_by, kind_of_fault};
ghost use Rattle.dali_words.specs.Arguments.{IsProgram};

use crate::line::{CommandLine, LineFault, NO_SUBCOMMAND};
use crate::program::{Program, Subcommand, command, command_of};
use clap::error::ErrorKind;
use clap::{ArgMatches, Error};
use dali_console::{ConsoleFault, Plain, words};
use std::alloc::{AllocError, Global};
use std::env::Env;
use std::io;
use std::io::Eprint;

/// The subcommand of this name.
fn named(program: &Program, name: &str) -> Option<&'static Subcommand>
    ensures first { option_map (λ from. from.now) result
        ≡ find (λ from. bytes_eq from.name.now name.now) program.now.subcommands.now }
    ensures name { IfSome result (λ from. from.now.name.now ≡ name.now) }
{
    for from in program.subcommands {
        if from.name == name {
            return Some(from);
        }
    }
    None
}

/// Why a line is wrong that `clap` took, with the usage of its subcommand.
fn refused(
    alloc: Global,
    program: &Program,
    from: &Subcommand,
    wrong: LineFault,
) -> Result<Error, AllocError>
    ensures kind { IfOk result (λ error. Some (kind_of error) ≡ kind_of_fault wrong) }
{
    let (kind, message) = match wrong {
        LineFault::Value(message) => (ErrorKind::ValueValidation, message),
        LineFault::TooMany(message) => (ErrorKind::TooManyValues, message),
        LineFault::Conflict(message) => (ErrorKind::ArgumentConflict, message),
        LineFault::Memory => return Err(AllocError),
    };
    let (program_name, name) = (program.name, from.name);
    let whole = format!(in alloc; "{program_name} {name}")?;
    command_of(alloc, &whole, from)?.error(kind, &message)
}

fn matches<'a>(
    alloc: Global,
    program: &Program,
    words: &'a [String],
) -> Result<ArgMatches<'a>, Error>
    ensures { IfOk result (λ found. (command : Command) × IsProgram program.now.subcommands.now command
        × IsParsedFrom command found) }
{
    command(alloc, program)?.try_get_matches_from(words)
}

/// The subcommand that stands on the line, and what stands there of its words. One that the program does not know, or
/// none, `clap` refuses before.
fn line(
    alloc: Global,
    program: &Program,
    found: &ArgMatches<'_>,
) -> Result<(&'static Subcommand, CommandLine), Error>
    ensures { IfOk result (λ r. subcommand_name_of found.now ≡ Some (string_bytes r.1.subcommand)) }
{
    if let Some((name, found)) = found.subcommand() {
        if let Some(from) = named(program, name) {
            return Ok((from, CommandLine::of(alloc, from, found)?));
        }
    }
    Err(command(alloc, program)?.error(ErrorKind::InvalidSubcommand, NO_SUBCOMMAND)?)
}

/// Reads a command line, the program's name first.
fn read<T, F: FnOnce(Global, &CommandLine) -> Result<T, LineFault>>(
    alloc: Global,
    program: &Program,
    words: &[String],
    task: F,
) -> Result<T, Error>
    requires { F.IsAlwaysCallable task }
    ensures { IfOk result (λ asked. (line : _) × F.post task alloc line (Ok asked)) }
{
    let (from, line) = line(alloc, program, &matches(alloc, program, words)?)?;
    match task(alloc, &line) {
        Ok(task) => Ok(task),
        Err(wrong) => Err(refused(alloc, program, from, wrong)?),
    }
}

/// On what help is shown, and nothing else. Contracts see that it was.
pub trait Shows {
    ghost shown: { Self → Type 0 };

    /// Shows help, or the version, as `clap` has it.
    fn show(&self, help: &Error) -> io::Result<()>
        ensures { OnOk result (shown self.now) };
}

impl<S: Print> Shows for S {
    ghost use Rattle.dali_words.specs.Answered.{IsShown};

    ghost shown = { IsShown };

    #[tactic(auto, unfolding(crate::specs::Answered::IsShown))]
    fn show(&self, help: &Error) -> io::Result<()> {
        self.print(help)
    }
}

/// What a command line comes to that `clap` answered: help is shown, and what is wrong is said on standard error, with
/// the control characters of arguments by their numbers.
fn answered<S: Shows + Eprint + AllocGlobal, T>(
    system: &S,
    error: &Error,
) -> Result<Option<T>, ConsoleFault>
    ensures help { IfOk result (λ found. (found ≡ None) × S.shown system.now) }
    ensures wrong { IfErr result (λ fault. fault ≡ fault_by (kind_of error.now)) }
{
    let fault = match error.kind() {
        ErrorKind::DisplayHelp | ErrorKind::DisplayVersion => match system.show(error) {
            Ok(()) => return Ok(None),
            Err(_) => return Err(ConsoleFault::Refused),
        },
        ErrorKind::OutOfMemory => ConsoleFault::Refused,
        _ => ConsoleFault::BadCommandLine,
    };
    if let Ok(text) = error.to_string(system.alloc()) {
        let _ = system.eprint(Plain(text));
    }
    Err(fault)
}

/// What the command line asks for: what `task` makes of what stands on it. None if it asks for help or the version,
/// which is printed. What is wrong is said on standard error, but that a word is not UTF-8, or cannot be read.
pub fn asked<S, T, F>(system: &S, program: &Program, task: F) -> Result<Option<T>, ConsoleFault>
where
    S: Env + Shows + Eprint + AllocGlobal,
    F: FnOnce(Global, &CommandLine) -> Result<T, LineFault>,
    requires { F.IsAlwaysCallable task }
    ensures { IfOk result (λ found. MatchOption found (S.shown system.now) (λ asked. (alloc : _) × (line : _)
        × F.post task alloc line (Ok asked))) }
{
    match read(system.alloc(), program, &words(system)?, task) {
        Ok(task) => Ok(Some(task)),
        Err(error) => answered(system, &error),
    }
}
