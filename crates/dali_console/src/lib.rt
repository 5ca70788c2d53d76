//! What all programs have in common: the words of the command line, texts for a terminal, and exit statuses.
#![tactic(auto)]

mod command_line;
mod ended;
mod fault;
mod plain;

pub use command_line::words;
pub use ended::{Failed, exit_code, say_and_exit};
pub use fault::ConsoleFault;
pub use plain::Plain;
