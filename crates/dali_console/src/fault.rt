//! What goes wrong when a program reads its command line and writes its answer.

use crate::ended::Failed;
use std::fmt;

/// What goes wrong with the command line or the output of a program, or for want of memory.
#[derive(Clone, Copy, PartialEq, Eq)]
pub enum ConsoleFault {
    /// Status 2: the command line asks for nothing that the program does. A program with `clap` has said why.
    BadCommandLine,
    /// Status 2: a word of the command line is not UTF-8.
    NotText,
    /// Status 3: there is too little memory, or the command line cannot be read, or the output cannot be written.
    Refused,
}

/// What is said of it on standard error.
impl fmt::Display for ConsoleFault {
    fn fmt<W: fmt::Write>(&self, f: &mut fmt::Formatter<W>) -> fmt::Result {
        let text = match self {
            ConsoleFault::BadCommandLine => {
                "error: bad command line: the launcher's --help has the words"
            }
            ConsoleFault::NotText => "error: an argument is not UTF-8",
            ConsoleFault::Refused => "error: memory, the command line or the output is refused",
        };
        f.write_str(text)
    }
}

impl Failed for ConsoleFault {
    ghost use Rattle.dali_console.specs.Status.{status_of};

    ghost status_of = { status_of };

    fn status(&self) -> u8 {
        match self {
            ConsoleFault::BadCommandLine | ConsoleFault::NotText => 2,
            ConsoleFault::Refused => 3,
        }
    }
}
