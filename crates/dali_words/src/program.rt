//! The words that a program knows, as a table, of which `clap` makes its command.

ghost use Rattle.std.specs.Prelude.{◌≡◌, [], true, None, Some, IfOk, OnOk};
ghost use Rattle.clap.specs.Texts.{items_of};
ghost use Rattle.dali_words.specs.Arguments.{is_needed, action_of, tested, value_of, default_of};
ghost use Rattle.dali_words.specs.Arguments.{IsArgument, AddsArguments, IsCommandOf, AddsCommands, IsProgram};

use clap::builder::ValueParser;
use clap::{Arg, ArgAction, Command};
use std::alloc::{AllocError, Global};

/// The version of all programs.
const VERSION: &str = "0.3.0";

/// What a value has to be.
#[derive(Clone, Copy)]
pub enum Value {
    /// Any text.
    Text,
    /// One of these.
    Among(&'static [&'static str]),
    /// A number from 1 to 255.
    Count,
    /// A short address, 0 to 63.
    Address,
    /// A number from 0 to 4,294,967,295.
    Number32,
    /// A number from 0 to 18,446,744,073,709,551,615.
    Number64,
}

/// What a word of the command line is.
#[derive(Clone, Copy)]
pub enum WordKind {
    /// An option that is there or not.
    Flag,
    /// The same, but never beside another one.
    NotBeside(&'static str),
    /// An option with a value.
    Option(Value),
    /// An option with a value that has to be there.
    Needed(Value),
    /// An option with a value, which is this one if it is not there.
    Default(Value, &'static str),
    /// An option with a value that may be given again.
    Again,
    /// The same, and it has to be there once.
    NeededAgain,
    /// A word at its place, which has to be there.
    Place(Value),
    /// A word at the last place, which may be left out.
    LastPlace(Value),
    /// One word or more at their place.
    Places,
}

/// A word of the command line: its name, what stands in the help for its value, and what the help says of it.
pub struct Word {
    pub name: &'static str,
    pub value: &'static str,
    pub help: &'static str,
    pub kind: WordKind,
}

/// A subcommand: its name, what the short help and the long one say of it and after its words, and its words.
pub struct Subcommand {
    pub name: &'static str,
    pub about: &'static str,
    pub long_about: Option<&'static str>,
    pub after_help: Option<&'static str>,
    pub words: &'static [Word],
}

/// A program: its name, what its help says of it and after its subcommands, and these.
pub struct Program {
    pub name: &'static str,
    pub about: &'static str,
    pub long_about: Option<&'static str>,
    pub after_help: &'static str,
    pub subcommands: &'static [Subcommand],
}

/// Whether a word has to be there.
fn is_needed(kind: WordKind) -> bool
    ensures { result ≡ is_needed kind }
{
    match kind {
        WordKind::Needed(_) | WordKind::NeededAgain | WordKind::Place(_) | WordKind::Places => true,
        WordKind::Flag
        | WordKind::NotBeside(_)
        | WordKind::Option(_)
        | WordKind::Default(..)
        | WordKind::Again
        | WordKind::LastPlace(_) => false,
    }
}

/// What a use of a word does.
fn action_of(kind: WordKind) -> ArgAction
    ensures { result ≡ action_of kind }
{
    match kind {
        WordKind::Flag | WordKind::NotBeside(_) => ArgAction::SetTrue,
        WordKind::Again | WordKind::NeededAgain | WordKind::Places => ArgAction::Append,
        WordKind::Option(_)
        | WordKind::Needed(_)
        | WordKind::Default(..)
        | WordKind::Place(_)
        | WordKind::LastPlace(_) => ArgAction::Set,
    }
}

/// What a value of a word has to be.
fn value_of(kind: WordKind) -> Value
    ensures { result ≡ value_of kind }
{
    match kind {
        WordKind::Option(value)
        | WordKind::Needed(value)
        | WordKind::Default(value, _)
        | WordKind::Place(value)
        | WordKind::LastPlace(value) => value,
        WordKind::Flag
        | WordKind::NotBeside(_)
        | WordKind::Again
        | WordKind::NeededAgain
        | WordKind::Places => Value::Text,
    }
}

/// What `clap` tests a value for.
fn tested(value: Value) -> Option<ValueParser<'static>>
    ensures { result ≡ tested value }
{
    match value {
        Value::Text => None,
        Value::Among(these) => Some(ValueParser::from(these)),
        Value::Count => Some(ValueParser::signed(1, 255)),
        Value::Address => Some(ValueParser::signed(0, 63)),
        Value::Number32 => Some(ValueParser::signed(0, 4_294_967_295)),
        Value::Number64 => Some(ValueParser::unsigned(0, u64::MAX)),
    }
}

/// The same argument, whose value has to be this.
fn typed(arg: Arg<'_>, value: Value) -> Arg<'_>
    requires { arg.value_parser ≡ None }
    ensures { result ≡ record arg.entry { value_parser = tested value } }
{
    match tested(value) {
        Some(parser) => arg.value_parser(parser),
        None => arg,
    }
}

/// The same argument, as it is spelled on a line and in the help.
fn spelled<'a>(arg: Arg<'a>, word: &Word) -> Arg<'a>
    ensures { result ≡ record arg.entry { long = result.long; val_names = result.val_names } }
{
    match word.kind {
        WordKind::Flag | WordKind::NotBeside(_) => arg.long(word.name),
        WordKind::Place(_) | WordKind::LastPlace(_) | WordKind::Places => {
            arg.value_name(word.value)
        }
        WordKind::Option(_)
        | WordKind::Needed(_)
        | WordKind::Default(..)
        | WordKind::Again
        | WordKind::NeededAgain => arg.long(word.name).value_name(word.value),
    }
}

/// The same argument, with what stands there if it is left out, and how often it may stand there, and beside what.
fn bounded(arg: Arg<'_>, kind: WordKind) -> Result<Arg<'_>, AllocError>
    requires { items_of arg.default_vals ≡ [] }
    ensures { IfOk result (λ made. (items_of made.default_vals ≡ default_of kind)
        × (made ≡ record arg.entry {
          default_vals = made.default_vals;
          num_vals = made.num_vals;
          conflicts = made.conflicts;
        })) }
{
    match kind {
        WordKind::Default(_, is) => Ok(arg.default_value(is)),
        WordKind::NotBeside(other) => arg.conflicts_with(other),
        WordKind::Places => Ok(arg.num_args(1..)),
        WordKind::Flag
        | WordKind::Option(_)
        | WordKind::Needed(_)
        | WordKind::Again
        | WordKind::NeededAgain
        | WordKind::Place(_)
        | WordKind::LastPlace(_) => Ok(arg),
    }
}

/// The argument of `clap` that a word is.
fn arg<'a>(alloc: Global, word: &Word) -> Result<Arg<'a>, AllocError>
    ensures { IfOk result (IsArgument word.now) }
{
    let kind = word.kind;
    let arg = typed(Arg::new(alloc, word.name), value_of(kind))
        .action(action_of(kind))
        .required(is_needed(kind))
        .help(word.help);
    bounded(spelled(arg, word), kind)
}

/// Adds the arguments that these words are, in their order.
fn push_args<'a>(args: &mut Vec<Arg<'a>>, alloc: Global, words: &[Word]) -> Result<(), AllocError>
    ensures { OnOk result (AddsArguments args.old.items words.now args.new.items) }
{
    let [word, more @ ..] = words else {
        return Ok(());
    };
    let arg = arg(alloc, word)?;
    args.push(arg)?;
    push_args(args, alloc, more)
}

/// The arguments that these words are, in their order.
fn args<'a>(alloc: Global, words: &[Word]) -> Result<Vec<Arg<'a>>, AllocError>
    ensures { IfOk result (λ args. AddsArguments [] words.now args.items) }
{
    let mut args = Vec::new(alloc);
    push_args(&mut args, alloc, words)?;
    Ok(args)
}

/// The command of `clap` that a subcommand is, under this name.
pub(crate) fn command_of<'a>(
    alloc: Global,
    name: &'a str,
    from: &Subcommand,
) -> Result<Command<'a>, AllocError>
    ensures { IfOk result (IsCommandOf from.now.words.now) }
{
    let mut command = Command::new(alloc, name).about(from.about);
    if let Some(text) = from.long_about {
        command = command.long_about(text);
    }
    if let Some(text) = from.after_help {
        command = command.after_help(text);
    }
    command.args(args(alloc, from.words)?)
}

/// Adds the commands that these subcommands are, in their order.
fn push_commands<'a>(
    alloc: Global,
    all: &'static [Subcommand],
    commands: &mut Vec<Command<'a>>,
) -> Result<(), AllocError>
    ensures { OnOk result (AddsCommands commands.old.items all.now commands.new.items) }
{
    let [from, more @ ..] = all else {
        return Ok(());
    };
    let command = command_of(alloc, from.name, from)?;
    commands.push(command)?;
    push_commands(alloc, more, commands)
}

/// The command of `clap` that a program is.
pub(crate) fn command<'a>(alloc: Global, program: &Program) -> Result<Command<'a>, AllocError>
    ensures { IfOk result (IsProgram program.now.subcommands.now) }
{
    let mut commands = Vec::new(alloc);
    push_commands(alloc, program.subcommands, &mut commands)?;
    let mut command = Command::new(alloc, program.name)
        .version(VERSION)
        .about(program.about);
    if let Some(text) = program.long_about {
        command = command.long_about(text);
    }
    command
        .after_help(program.after_help)
        .subcommand_required(true)
        .subcommands(commands)
}
