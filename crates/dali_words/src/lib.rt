//! The command line of a program: a table of the words that it knows, and what stands on a line.
//!
//! It is read by `clap`, which takes long to load, so no other crate names that.
#![tactic(auto)]

mod line;
mod program;
mod reading;

pub use line::{CommandLine, LineFault, conflict, no_task, wrong_value};
pub use program::{Program, Subcommand, Value, Word, WordKind};
pub use reading::{Shows, asked};
