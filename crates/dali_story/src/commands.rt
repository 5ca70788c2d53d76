//! The names of commands, as the standard has them, each with its argument.
#![tactic(auto)]

ghost use Rattle.std.specs.Prelude.{◌≡◌, ◌++◌, OnOk, string_bytes};
ghost use Rattle.dali_story.specs.Commands.{with_byte, with_short, initialise_text, program_text, query_name};
ghost use Rattle.dali_story.specs.Commands.{command_text};

use dali_frame::Short;
use dali_special::{Command, Part, Target};
use std::alloc::AllocError;

#[tactic(auto, using(std::proofs::lemmas::Fmt::hex_byte), unfolding(crate::specs::Commands::with_byte))]
fn push_with_byte(text: &mut String, name: &str, byte: u8) -> Result<(), AllocError>
    ensures { OnOk result (string_bytes text.new ≡ string_bytes text.old ++ with_byte name.now byte) }
{
    write!(text, "{name} {byte:02X}")
}

#[tactic(auto, unfolding(crate::specs::Commands::with_short))]
fn push_with_short(text: &mut String, name: &str, short: Short) -> Result<(), AllocError>
    ensures { OnOk result (string_bytes text.new ≡ string_bytes text.old ++ with_short name.now short) }
{
    let number = short.number();
    write!(text, "{name} {number}")
}

#[tactic(auto, unfolding(crate::specs::Commands::initialise_text))]
fn push_initialise(text: &mut String, target: Target) -> Result<(), AllocError>
    ensures { OnOk result (string_bytes text.new ≡ string_bytes text.old ++ initialise_text target) }
{
    match target {
        Target::All => text.push_str("INITIALISE all"),
        Target::Addressed(short) => push_with_short(text, "INITIALISE", short),
        Target::Unaddressed => text.push_str("INITIALISE no short address"),
    }
}

#[tactic(auto, unfolding(crate::specs::Commands::program_text))]
fn push_program(text: &mut String, short: Option<Short>) -> Result<(), AllocError>
    ensures { OnOk result (string_bytes text.new ≡ string_bytes text.old ++ program_text short) }
{
    match short {
        None => text.push_str("PROGRAM SHORT ADDRESS none"),
        Some(short) => push_with_short(text, "PROGRAM SHORT ADDRESS", short),
    }
}

fn query_name(part: Part) -> &'static str
    ensures { result.now ≡ query_name part }
{
    match part {
        Part::High => "QUERY RANDOM ADDRESS (H)",
        Part::Middle => "QUERY RANDOM ADDRESS (M)",
        Part::Low => "QUERY RANDOM ADDRESS (L)",
    }
}

/// The name of a command, and its argument.
#[tactic(auto, unfolding(crate::specs::Commands::command_text))]
pub fn push_command(text: &mut String, command: Command) -> Result<(), AllocError>
    ensures { OnOk result (string_bytes text.new ≡ string_bytes text.old ++ command_text command) }
{
    match command {
        Command::Terminate => text.push_str("TERMINATE"),
        Command::Initialise(target) => push_initialise(text, target),
        Command::Randomise => text.push_str("RANDOMISE"),
        Command::Compare => text.push_str("COMPARE"),
        Command::Withdraw => text.push_str("WITHDRAW"),
        Command::SearchHigh(byte) => push_with_byte(text, "SEARCHADDRH", byte),
        Command::SearchMiddle(byte) => push_with_byte(text, "SEARCHADDRM", byte),
        Command::SearchLow(byte) => push_with_byte(text, "SEARCHADDRL", byte),
        Command::Program(short) => push_program(text, short),
        Command::Verify(short) => push_with_short(text, "VERIFY SHORT ADDRESS", short),
        Command::QueryShort => text.push_str("QUERY SHORT ADDRESS"),
        Command::RandomByte(short, part) => push_with_short(text, query_name(part), short),
        Command::Arc(_) => text.push_str("DAPC"),
        Command::Other(_) => text.push_str("other"),
    }
}
