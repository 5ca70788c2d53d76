//! What stands on a command line.

ghost use Rattle.std.specs.Prelude.{◌≡◌, ◌↔◌, ◌++◌, map, slice_get, option_map, codes, string_bytes};
ghost use Rattle.std.specs.Prelude.{Some, None, Result, IsErr, IfErr, IsTrue, IfOk, OnOk, MatchOption};
ghost use Rattle.std.specs.Result.{result_ok};
ghost use Rattle.dali_words.specs.Lines.{pair_of, values_of, found_under, all_found, IsWrongValue, IsConflict};

use crate::program::Subcommand;
use clap::ArgMatches;
use std::alloc::{AllocError, Global};
use std::str::FromStr;

/// What is said if no subcommand is known.
pub(crate) const NO_SUBCOMMAND: &str = "no such subcommand";

/// What stands on a command line.
#[derive(Drop)]
pub struct CommandLine {
    /// The name of the subcommand.
    pub subcommand: String,
    /// The values of its words, each with the name of the word, also those of defaults. That of a flag is `true` if
    /// the flag is there.
    pub values: Vec<(String, String)>,
}

/// Why a line asks for nothing although `clap` took it, in a sentence that is put before the usage.
#[derive(Drop)]
pub enum LineFault {
    /// A value is none of its word.
    Value(String),
    /// There is a value too many.
    TooMany(String),
    /// Words do not go together.
    Conflict(String),
    /// There is too little memory.
    Memory,
}

impl From<AllocError> for LineFault {
    ghost use Rattle.dali_words.specs.declared.line.LineFault.TheVariants.{Memory};

    ghost from_gives = { λ _ e. e ≡ Memory };

    fn from(_error: AllocError) -> LineFault {
        LineFault::Memory
    }
}

/// A value is none of its word, for this reason.
pub fn wrong_value<T>(alloc: Global, message: &str) -> Result<T, LineFault>
    ensures fails { IsErr result }
    ensures says { IfErr result (IsWrongValue message.now) }
{
    Err(LineFault::Value(String::from_str(alloc, message)?))
}

/// Words do not go together, for this reason.
pub fn conflict<T>(alloc: Global, message: &str) -> Result<T, LineFault>
    ensures fails { IsErr result }
    ensures says { IfErr result (IsConflict message.now) }
{
    Err(LineFault::Conflict(String::from_str(alloc, message)?))
}

/// A subcommand that no task is for. `clap` refuses it before.
pub fn no_task<T>(alloc: Global) -> Result<T, LineFault>
    ensures { IsErr result }
{
    wrong_value(alloc, NO_SUBCOMMAND)
}

impl CommandLine {
    /// Adds what stands there of a word.
    fn take(&mut self, alloc: Global, name: &str, found: &ArgMatches<'_>) -> Result<(), AllocError>
        ensures subcommand { self.new.subcommand ≡ self.old.subcommand }
        ensures values { OnOk result (map pair_of self.new.values.items
            ≡ map pair_of self.old.values.items ++ found_under found.now name.now) }
    {
        let Some(values) = found.get_raw(name) else {
            return Ok(());
        };
        for value in values {
            let name = String::from_str(alloc, name)?;
            self.values.push((name, String::from_str(alloc, value)?))?;
        }
        Ok(())
    }

    /// What `clap` found of a subcommand.
    pub(crate) fn of(
        alloc: Global,
        from: &Subcommand,
        found: &ArgMatches<'_>,
    ) -> Result<CommandLine, AllocError>
        ensures subcommand { IfOk result (λ line. string_bytes line.subcommand ≡ from.now.name.now) }
        ensures values { IfOk result (λ line. map pair_of line.values.items
            ≡ all_found found.now from.now.words.now) }
    {
        let mut line = CommandLine {
            subcommand: String::from_str(alloc, from.name)?,
            values: Vec::new(alloc),
        };
        for word in from.words {
            line.take(alloc, word.name, found)?;
        }
        Ok(line)
    }

    /// The first value of a word, if it has one.
    pub fn value(&self, name: &str) -> Option<&str>
        ensures { option_map (λ value. value.now) result ≡ slice_get (values_of name.now self.now.values.items) 0 }
    {
        for (word, value) in self.values.iter() {
            if word.as_str() == name {
                return Some(value.as_str());
            }
        }
        None
    }

    /// The first value of a word as a number. `clap` has seen that it is one.
    pub fn number<T: FromStr>(&self, name: &str) -> Option<T>
    where
        T::Err: Drop,
        ensures { MatchOption (slice_get (values_of name.now self.now.values.items) 0) (result ≡ None)
            (λ value. (read : Result T T.Err) × T.from_str_gives value read × (result ≡ result_ok read)) }
    {
        self.value(name)?.parse().ok()
    }

    /// Whether a flag is there.
    pub fn has(&self, flag: &str) -> bool
        ensures { IsTrue result
            ↔ (slice_get (values_of flag.now self.now.values.items) 0 ≡ Some (codes "true")) }
    {
        self.value(flag) == Some("true")
    }
}
